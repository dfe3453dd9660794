// A case: a word for each slice and each number, and the slices.
ghost use Rattle.std.specs.Prelude.{◌≡◌, ◌*◌, ◌≤◌, ◌<◌, length, IfSome};
ghost use Rattle.streams.specs.Cases.{word_at, length_at, noise_at, start_at, slice_at};

use crate::noise;
use crate::outcome::Lent;
use octets::number;

// Beside the length of a slice of noise; beside that of one that is written to stands twice as much.
const NOISE: u32 = 1073741824;

// Sixteen words of four bytes each: one for each slice, which has its length and whether it holds noise, and then the numbers.
#[derive(Clone, Copy)]
pub struct Words(pub [u8; 64]);

impl Words {
    fn word(&self, s: usize) -> u32
        requires { s < 16 }
        ensures { result ≡ word_at self.now.0 s }
    {
        number::be32(&self.0, 4 * s)
    }

    pub fn length_of(&self, s: usize) -> usize
        requires { s < 16 }
        ensures { (result ≡ length_at self.now.0 s) × (result < 1073741824) }
    {
        (self.word(s) % NOISE) as usize
    }

    pub fn is_noise(&self, s: usize) -> bool
        requires { s < 16 }
        ensures { result ≡ noise_at self.now.0 s }
    {
        self.word(s) / NOISE % 2 == 1
    }

    // Where slice s begins.
    #[tactic(auto, unfolding(crate::specs::Cases::start_at))]
    fn start(&self, s: usize) -> usize
        requires { s ≤ 16 }
        ensures { (result ≡ start_at self.now.0 s) × (result ≤ s * 1073741824) }
    {
        let mut at = 0;
        for i in 0..s {
            at += self.length_of(i);
        }
        at
    }

    // Puts n slices into given, one behind the other, as they are before the call: noise, or what the input has. None if they have no
    // room or the input ends.
    #[tactic(auto, unfolding(crate::specs::Cases::start_at))]
    pub fn hold(
        &self,
        rt: &(impl Input + Eprint),
        given: &mut [u8],
        n: usize,
        fill: u8,
    ) -> Option<()>
        requires { (length given.old ≤ 65536) × (n ≤ 16) }
        ensures { IfSome result (λ u. start_at self.now.0 n ≤ length given.old) }
    {
        let mut rest = given;
        for s in 0..n {
            let (slice, behind) = rest.split_at_mut_checked(self.length_of(s))?;
            if self.is_noise(s) {
                noise::fill(slice, fill);
            } else {
                crate::fill(rt, slice)?;
            }
            rest = behind;
        }
        Some(())
    }
}

#[derive(Clone, Copy)]
pub struct Case<'a> {
    pub words: &'a Words,
    pub given: &'a [u8],
}

impl<'a> Case<'a> {
    // The number that word s is.
    pub fn number(&self, s: usize) -> u32
        requires { s < 16 }
        ensures { result ≡ word_at self.now.words.now.0 s }
    {
        self.words.word(s)
    }

    // Slice s; an empty one if it has over 40,000 bytes or is not there.
    pub fn slice(&self, s: usize) -> &'a [u8]
        requires { s < 16 }
        ensures { (result.now ≡ slice_at self.now.words.now.0 self.now.given.now s) × (length result.now ≤ 40000) }
    {
        let from = self.words.start(s);
        match self.given.get(from..from + self.words.length_of(s)) {
            Some(slice) if slice.len() <= 40000 => slice,
            _ => &[],
        }
    }

    // Slice s, to be written to.
    pub fn lend(&self, s: usize) -> Lent<'a>
        requires { s < 16 }
        ensures { result.before.now ≡ slice_at self.now.words.now.0 self.now.given.now s }
    {
        Lent::new(self.slice(s))
    }
}
