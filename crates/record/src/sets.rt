// Two records of one set.
ghost use Rattle.std.specs.Prelude.{◌≡◌};
ghost use Rattle.record.specs.Fields.{set_of};
ghost use Rattle.record.specs.Sets.{same_set, agreeing};

use crate::fields;
use crate::subscriber::Record;
use octets::{name, number};

// The number of a record's set; 0 for none, as the block has it.
pub fn set(b: &[u8; 512]) -> u32
    ensures { result ≡ set_of b.now }
{
    number::be16(b, Record::SET_AT)
}

// "the records of one subscription with the same nonzero number": names are compared only where the numbers are the same.
pub fn same_set(a: &[u8; 512], b: &[u8; 512]) -> bool
    ensures { result ≡ same_set a.now b.now }
{
    let number = set(a);
    (0 < number) & (number == set(b)) && name::same(fields::private(a), fields::private(b))
}

// "agree in state, pending and server name"
pub fn agree(a: &[u8; 512], b: &[u8; 512]) -> bool
    ensures { result ≡ agreeing a.now b.now }
{
    (a[Record::STATE_AT] == b[Record::STATE_AT])
        & (a[Record::BITS_AT] % 2 == b[Record::BITS_AT] % 2)
        & name::same(fields::server(a), fields::server(b))
}
