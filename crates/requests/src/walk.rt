// "Then AVPs by position; the first fault decides."
ghost use Rattle.std.specs.Prelude.{◌≡◌, drop};
ghost use Rattle.diameter.specs.Walk.{walk};
ghost use Rattle.requests.specs.Judged.{nothing, judge};
ghost use Rattle.requests.specs.Found.{judged_of};

use diameter::message;
use reading::{Dialect, Ruled, Verdict, base, kinds, rules};

// The walk over the AVPs, up to the first fault. Each place that it leaves is the reader's. The array is its own until the end, which is a quarter quicker.
pub fn walk_message(s: &[u8], d: Dialect, places: &mut [usize; kinds::KINDS]) -> Result<(), Verdict>
    ensures { judged_of s.now places.new result ≡ judge d 20 (walk (drop 20 s.now)) nothing }
{
    let absent = s.len();
    let mut found = [absent; kinds::KINDS];
    // By place: each AVP says where the next one begins.
    let mut at = message::BODY;
    while at < s.len() {
        let read = diameter::read_avp(s, at);
        let place = diameter::begins(read);
        let Ok(a) = read else {
            return Err(Verdict::at(base::INVALID_AVP_LENGTH, place));
        };
        let k = kinds::kind_of(s, a);
        match rules::rule_at(s, d, found, a, k) {
            Ruled::Taken => found[k] = place,
            Ruled::Skipped => {}
            Ruled::Fault(n) => return Err(Verdict::at(n, place)),
        }
        at = a.next;
    }
    *places = found;
    Ok(())
}
