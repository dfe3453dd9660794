// "LIR."
ghost use Rattle.std.specs.Prelude.{◌≡◌};
ghost use Rattle.table.specs.SoundTable.{SoundTable};
ghost use Rattle.lookup.specs.Among.{Among};
ghost use Rattle.questions.specs.Location.{sought_at, sought_of, locate};

use crate::carrying;
use choices::Given;
use choices::choice::Sought;
use record::fields;
use record::subscriber::Record;

// The questions, put to a record's block.
#[tactic(auto, unfolding(crate::specs::Location::sought_at))]
fn seek_record(b: &[u8; 512]) -> Sought
    ensures { result ≡ sought_at b.now }
{
    Sought {
        known: true,
        present: 0 < b[Record::STATE_AT],
        services: fields::unregistered_services(b),
    }
}

// The questions, put to the record with the public identity, if there is one.
#[tactic(auto, using(lookup::proofs::Among::among_room), unfolding(crate::specs::Location::sought_of))]
fn seek(t: &[u8], count: usize, f: Option<u32>) -> Sought
    requires { SoundTable t.now count × Among count f }
    ensures { result ≡ sought_of t.now f }
{
    match f {
        Some(k) => seek_record(blocks::block(t, k as usize)),
        None => Sought {
            known: false,
            present: false,
            services: false,
        },
    }
}

#[tactic(auto, unfolding(crate::specs::Location::locate, crate::specs::Location::locate_found, table::specs::Named::private_at))]
pub fn locate(t: &[u8], count: usize, public: &[u8]) -> Given
    requires { SoundTable t.now count }
    ensures { result ≡ locate t.now count public.now }
{
    let f = lookup::find_public(t, count, public);
    let k = lookup::block_found(f);
    let owner = fields::private(blocks::block(t, k as usize));
    carrying::carry(t, count, owner, k, seek(t, count, f).location())
}
