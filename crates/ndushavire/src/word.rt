// The word that a call returns: made of its parts, and taken apart by who called.
ghost use Rattle.std.specs.Prelude.{◌≡◌};
ghost use Rattle.ndushavire.specs.Word.{word};
ghost use Rattle.ndushavire.specs.Reads.{number_in, value_in};

// What the number of a word counts, 2^48, and what the place counts, 2^32; the value stays below that.
const NUMBER: u64 = 281474976710656;

const PLACE: u64 = 4294967296;

// A number, a place and what is returned besides, as one word.
pub fn of(number: u16, place: u16, value: u32) -> u64
    ensures { result ≡ word number place value }
{
    (number as u64) * NUMBER + (place as u64) * PLACE + (value as u64)
}

// The number of a word: 0, or the refusal's.
pub fn number_in(w: u64) -> u32
    ensures { result ≡ number_in w }
{
    (w / NUMBER) as u32
}

// What is returned besides: the answer's length, where there is one.
pub fn value_in(w: u64) -> u32
    ensures { result ≡ value_in w }
{
    (w % PLACE) as u32
}
