// The fault of what an AVP holds that is no group.
ghost use Rattle.std.specs.Prelude.{◌≡◌};
ghost use Rattle.diameter.specs.Reader.{own_of, Here};
ghost use Rattle.reading.specs.Contents.{fault_unless, number_fault, plain_fault};
ghost use Rattle.reading.specs.Verdicts.{Faulted};

use crate::{Content, base};
use diameter::Avp;

// A fault of a number, where something is not good; 0 is none.
pub fn fault_unless(good: bool, n: u32) -> Result<(), u32>
    ensures { Faulted result (fault_unless good n) }
{
    if good | (n == 0) { Ok(()) } else { Err(n) }
}

// (g) "a 4-byte kind of another length", (h) or one whose number is not within the limits.
fn number_fault(s: &[u8], a: Avp, least: u32, most: u32) -> Result<(), u32>
    requires { Here s.now a }
    ensures { Faulted result (number_fault least most (own_of s.now a)) }
{
    if a.len != a.head + 4 {
        return Err(base::INVALID_AVP_LENGTH);
    }
    let n = diameter::value_of(s, a);
    fault_unless((least <= n) & (n <= most), base::INVALID_AVP_VALUE)
}

// (g), (h) The fault of what an AVP holds; a group's members are not looked at.
pub fn plain_fault(c: Content, s: &[u8], a: Avp) -> Result<(), u32>
    requires { Here s.now a }
    ensures { Faulted result (plain_fault c (own_of s.now a)) }
{
    match c {
        Content::Number(least, most) => number_fault(s, a, least, most),
        Content::Sized(least, most) => {
            let n = a.len - a.head;
            fault_unless((least <= n) & (n <= most), base::INVALID_AVP_VALUE)
        }
        Content::Free | Content::Members(_) => Ok(()),
    }
}
