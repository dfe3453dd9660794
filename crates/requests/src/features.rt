// What the Supported-Features of a request ask for, looked at in one walk.
ghost use Rattle.std.specs.Prelude.{◌≡◌, ◌≤◌, length};
ghost use Rattle.diameter.specs.Message.{body_of};
ghost use Rattle.diameter.specs.Walk.{some_avp};
ghost use Rattle.reading.specs.Features.{asks_beyond};
ghost use Rattle.reading.specs.Places.{seen_of};
ghost use Rattle.requests.specs.Features.{called_in, wanted_of};
ghost use Rattle.requests.specs.Judged.{fine};
ghost use Rattle.requests.specs.Request.{read_in};

use crate::places;
use diameter::message;
use reading::{Dialect, Terms, features, kinds};

// Whether the server's own list is called for, and whether a feature is asked for that it does not support.
#[derive(Clone, Copy)]
pub struct Wanted {
    pub listed: bool,
    pub beyond: bool,
}

// The same, whatever the header is.
fn wanted_in(s: &[u8], d: Dialect) -> Wanted
    ensures { (result.listed ≡ called_in (body_of s.now))
        × (result.beyond ≡ some_avp (asks_beyond d.terms.features) (body_of s.now)) }
{
    let terms = d.terms;
    let mut listed = false;
    let mut beyond = false;
    // By place: each AVP says where the next one begins.
    let mut at = message::BODY;
    while at < s.len() {
        let Ok(a) = diameter::read_avp(s, at) else {
            return Wanted { listed, beyond };
        };
        if kinds::kind_of(s, a) == kinds::SUPPORTED_FEATURES {
            listed = listed | ((at != message::BODY) & features::passes(d, s, a));
            beyond = beyond | features::asks(terms.features, s, a);
        }
        at = a.next;
    }
    Wanted { listed, beyond }
}

// "a request with no header fault"
pub fn wanted_of(req: &[u8], terms: Terms) -> Wanted
    requires { 20 ≤ length req.now }
    ensures { result ≡ wanted_of terms req.now }
{
    let d = crate::dialect(req, terms);
    let found = wanted_in(req, d);
    Wanted {
        listed: crate::header(req, d, crate::spoken(d)).is_ok() & found.listed,
        beyond: found.beyond,
    }
}

// The same of a request that was read: where no 628 was taken there is none, and its AVPs are not gone over again.
pub fn wanted_read(req: &[u8], d: Dialect, found: [usize; kinds::KINDS]) -> Wanted
    requires { (20 ≤ length req.now) × (read_in d req.now ≡ fine (seen_of req.now found)) }
    ensures { result ≡ wanted_of d.terms req.now }
{
    if places::given(req, found, kinds::SUPPORTED_FEATURES) {
        return wanted_of(req, d.terms);
    }
    Wanted {
        listed: false,
        beyond: false,
    }
}
