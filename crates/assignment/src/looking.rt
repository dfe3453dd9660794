// What is seen of a SAR's records: every question in one pass.
ghost use Rattle.std.specs.Prelude.{◌≡◌, ◌≤◌, length};
ghost use Rattle.lookup.specs.Find.{end_of};
ghost use Rattle.assignment.specs.Survey.{clean, both, also_known, look_at, look_found};

use crate::Asks;
use choices::plan::Survey;
use octets::name;
use record::fields;
use record::subscriber::Record;

// Nothing seen yet.
pub fn fresh() -> Survey
    ensures { result ≡ clean }
{
    Survey {
        known: true,
        some: false,
        own: true,
        stores: true,
        fits: true,
        right: true,
    }
}

pub fn join(a: Survey, b: Survey) -> Survey
    ensures { result ≡ both a b }
{
    Survey {
        known: a.known & b.known,
        some: a.some | b.some,
        own: a.own & b.own,
        stores: a.stores & b.stores,
        fits: a.fits & b.fits,
        right: a.right & b.right,
    }
}

// A survey, with another word on what is known.
#[tactic(auto, unfolding(crate::specs::Survey::also_known))]
pub fn also_known(v: Survey, known: bool) -> Survey
    ensures { result ≡ also_known v known }
{
    Survey {
        known: v.known & known,
        ..v
    }
}

impl Asks<'_> {
    // Of a record's block.
    #[tactic(auto, unfolding(crate::specs::Survey::look_at))]
    pub fn look_at(self, b: &[u8; 512]) -> Survey
        ensures { result ≡ look_at b.now self.entry.owner.now self.entry.server.now self.entry.kind }
    {
        let stores = name::same(fields::server(b), self.server);
        Survey {
            known: true,
            some: true,
            own: name::same(fields::private(b), self.owner),
            stores,
            fits: (b[Record::SERVER_LENGTH_AT] == 0) | stores,
            right: self.kind.allows(b[Record::STATE_AT]),
        }
    }

    // Of a record that was found or not.
    #[tactic(auto, unfolding(crate::specs::Survey::look_found))]
    pub fn look_found(self, t: &[u8], f: Option<u32>) -> Survey
        requires { end_of f ≤ length t.now }
        ensures { result ≡ look_found t.now f self.entry.owner.now self.entry.server.now self.entry.kind }
    {
        match f {
            Some(k) => self.look_at(blocks::block(t, k as usize)),
            None => Survey {
                known: false,
                ..fresh()
            },
        }
    }
}
