// What the Data-References of a request ask for.
ghost use Rattle.std.specs.Prelude.{◌≡◌};
ghost use Rattle.diameter.specs.Message.{body_of};
ghost use Rattle.sh.specs.Referring.{references_of};

use diameter::message;
use reading::kinds;
use user_data::References;

// "registration state (Data-Reference 11) and server name (12)"
const STATE: u32 = 11;

const NAME: u32 = 12;

// The walk over the AVPs, up to a length fault: a request that was read has none.
pub fn references_of(s: &[u8]) -> References
    ensures { result ≡ references_of (body_of s.now) }
{
    let mut state = false;
    let mut name = false;
    let mut other = false;
    // By place: it steps over whole AVPs.
    let mut at = message::BODY;
    while at < s.len() {
        let Ok(a) = diameter::read_avp(s, at) else {
            return References { state, name, other };
        };
        let here = kinds::kind_of(s, a) == kinds::DATA_REFERENCE;
        let n = diameter::value_of(s, a);
        state |= here & (n == STATE);
        name |= here & (n == NAME);
        other |= here & ((n != STATE) & (n != NAME));
        at = a.next;
    }
    References { state, name, other }
}
