// The words of a report as bytes.
ghost use Rattle.std.specs.Prelude.{◌≡◌, ◌≤◌, length};
ghost use Rattle.octets.specs.Run.{Wrote};
ghost use Rattle.counting.specs.Words.{long_bytes, words_bytes};

use crate::WORDS;

// One word, the highest byte first.
fn put_long(out: &mut [u8], n: u64)
    requires { 8 ≤ length out.old }
    ensures { Wrote (long_bytes n) out.old out.new 8 }
{
    out[..8].copy_from_slice(&n.to_be_bytes());
}

// All words, to the front of a report area; what is past them stays.
pub fn put_words(area: &mut [u8], counts: &[u64; WORDS])
    requires { 1160 ≤ length area.old }
    ensures { Wrote (words_bytes counts.now) area.old area.new 1160 }
{
    for (i, n) in counts.iter().enumerate() {
        put_long(&mut area[8 * i..], *n);
    }
}
