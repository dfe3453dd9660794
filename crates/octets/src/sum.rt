// The sum of the words of a block, wrapping at 2^32.
ghost use Rattle.std.specs.Prelude.{◌≡◌, ◌*◌, ◌≤◌, length};
ghost use Rattle.octets.specs.Columns.{odd_bytes, columns_of, even_of, turned};
ghost use Rattle.octets.specs.Sum.{sum_words};

use crate::number;

// Words added up as the machine has them, and their second and fourth bytes once more by themselves, each with 16 bits for its sum.
#[derive(Clone, Copy)]
pub struct Sums {
    pub whole: u32,
    pub odd: u32,
}

// The second and the fourth byte of a word as the machine has it.
fn odd_bytes(w: u32) -> u32
    ensures { (result ≡ odd_bytes w) × (result ≤ 16711935) }
{
    w / 256 % 256 + w / 16777216 * 65536
}

// The sums of the first n words, by place: "wrapping add over the block's 128 words". Every machine has vectors that do this, and not all have ones that
// turn words round.
fn columns(s: &[u8], n: usize) -> Sums
    requires { (4 * n ≤ length s.now) × (n ≤ 128) }
    ensures { result ≡ columns_of s.now n }
{
    let mut whole: u32 = 0;
    let mut odd: u32 = 0;
    for i in 0..n {
        let w = number::le32(s, 4 * i);
        whole = whole.wrapping_add(w);
        odd += odd_bytes(w);
    }
    Sums { whole, odd }
}

impl Sums {
    // The sums of the first and of the third bytes: those of all bytes, less the odd ones with what they carry.
    fn even(self) -> u32
        ensures { result ≡ even_of self.whole self.odd }
    {
        self.whole.wrapping_sub(self.odd % 16777216 * 256)
    }

    // The sum of words whose first byte is the highest.
    fn turned(self) -> u32
        ensures { result ≡ turned (even_of self.whole self.odd) self.odd }
    {
        let even = self.even();
        (even % 256 * 16777216)
            .wrapping_add(self.odd % 65536 * 65536)
            .wrapping_add(even / 65536 * 256 + self.odd / 65536)
    }
}

// The sum of the first n words: their bytes are put in their order when all are added.
pub fn sum_words(s: &[u8], n: usize) -> u32
    requires { (4 * n ≤ length s.now) × (n ≤ 128) }
    ensures { result ≡ sum_words s.now n }
{
    columns(s, n).turned()
}
