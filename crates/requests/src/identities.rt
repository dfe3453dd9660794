// The Public-Identities of a request, one after the other: a SAR may have many.
ghost use Rattle.requests.specs.NextIdentity.{Named};

use reading::kinds;

// A Public-Identity: its place, and the place after it.
#[derive(Clone, Copy)]
pub struct Identity {
    pub place: usize,
    pub past: usize,
}

// The first one at or after a place where an AVP begins.
pub fn next_identity(s: &[u8], from: usize) -> Option<Identity>
    ensures { Named s.now from result }
{
    // By place: each AVP says where the next one begins.
    let mut at = from;
    while at < s.len() {
        let Ok(a) = diameter::read_avp(s, at) else {
            return None;
        };
        if kinds::kind_of(s, a) == kinds::PUBLIC_IDENTITY {
            return Some(Identity {
                place: a.at,
                past: a.next,
            });
        }
        at = a.next;
    }
    None
}
