// What the plain engine does with bytes: words added, names compared, one after the other. The comparisons are functions for their contracts: the definitions.
ghost use Rattle.std.specs.Prelude.{◌≡◌};
ghost use Rattle.octets.specs.Name.{same, order_of};
ghost use Rattle.octets.specs.Sum.{sum_words};
ghost use Rattle.table.specs.Check.{is_less};

use octets::number;

// "The 128 words of 32 bits in a block sum to zero, wrapping at 2^32". By number: document 01 names the form, an add over the words.
pub fn sum(b: &[u8; 512]) -> u32
    ensures { result ≡ sum_words b.now 128 }
{
    let mut sum: u32 = 0;
    for i in 0..128 {
        sum = sum.wrapping_add(number::be32(b, 4 * i));
    }
    sum
}

// "A name is bytes, compared exactly." Byte by byte, where the library compares groups of them; by index, so that the loop becomes vectors.
pub fn same(s: &[u8], t: &[u8]) -> bool
    ensures { result ≡ same s.now t.now }
{
    if s.len() != t.len() {
        return false;
    }
    let mut alike = true;
    for i in 0..s.len() {
        alike &= s[i] == t[i];
    }
    alike
}

// "rise strictly, bytewise, a prefix first": the library puts slices in order by one element after the other.
pub fn less(s: &[u8], t: &[u8]) -> bool
    ensures { result ≡ is_less (order_of s.now t.now) }
{
    s < t
}
