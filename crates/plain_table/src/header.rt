// "Header": its block, sentence by sentence.
ghost use Rattle.std.specs.Prelude.{◌≡◌, ◌+◌, ◌<◌, length, take, drop};
ghost use Rattle.octets.specs.All.{all_below};
ghost use Rattle.record.specs.HeaderBlock.{sound_counts, sound_edition, is_header, sound_numbers, sound_header_rest, sound_header};
ghost use Rattle.record.specs.Networks.{place_at, sound_place, other_place, new_place};

use crate::bytes;
use octets::run;
use record::header::Header;

// "1 edition 1"; 02 [5]: "That is edition 2 in byte 1", and edition 1 has no issue number.
fn edition(h: Header) -> bool
    ensures { result ≡ sound_edition h }
{
    (h.edition == 1) & (h.issue == 0) | (h.edition == 2)
}

// "0 kind 1; 1 edition 1; 4-7 block number 0"
fn beginning(h: Header) -> bool
    ensures { result ≡ is_header h }
{
    (h.kind == 1) & edition(h) & (h.number == 0)
}

// "0 to 4,096" records; "15 networks (0 to 8)"
fn counts(h: Header) -> bool
    ensures { result ≡ sound_counts h }
{
    (h.count <= 4096) & (h.networks <= 8)
}

// "12 keep (0 or 1); 13, 14 lengths of host and realm (1 to 64)"
fn numbers(h: Header) -> bool
    ensures { result ≡ sound_numbers h }
{
    (h.keep <= 1) & (1 <= h.host) & (h.host <= 64) & (1 <= h.realm) & (h.realm <= 64)
}

// "Bytes not named are zero, and so are unused places in a field": "16-79 host; 80-143 realm; 144-399 eight places"; 02 [5]: 408-411 issue number.
fn rest(b: &[u8; 512], h: Header) -> bool
    ensures { result ≡ sound_header_rest b.now h }
{
    run::zero_between(b, 2, 4)
        & run::zero_between(b, 16 + (h.host as usize), 80)
        & run::zero_between(b, 80 + (h.realm as usize), 144)
        & run::zero_between(b, 400, 408)
        & run::zero_between(b, 412, 508)
}

// "144-399 eight places of 32": place i.
fn place(b: &[u8; 512], i: usize) -> &[u8; 32]
    requires { i < 8 }
    ensures { result.now ≡ take 32 (drop (place_at i) b.now) }
{
    b[144 + 32 * i..].first_chunk().unwrap()
}

// "a length 1 to 31, then the visited network's name", and zeros; a place past the last network is all zeros.
fn place_sound(b: &[u8; 512], n: usize, i: usize) -> bool
    requires { i < 8 }
    ensures { result ≡ sound_place b.now n i }
{
    let at = 144 + 32 * i;
    if n <= i {
        return run::zero_between(b, at, at + 32);
    }
    let size = octets::byte(b, at);
    (1 <= size) & (size <= 31) & run::zero_between(b, at + 1 + size, at + 32)
}

fn places_sound(b: &[u8; 512], n: usize) -> bool
    ensures { result ≡ all_below (sound_place b.now n) 8 }
{
    (0..8).all(|i| place_sound(b, n, i))
}

// "no two alike": places i and j differ.
fn other(b: &[u8; 512], j: usize, i: usize) -> bool
    requires { (i < 8) × (j < 8) }
    ensures { result ≡ other_place b.now j i }
{
    !bytes::same(place(b, i), place(b, j))
}

// Place j, if a network is in it, is like none before it.
fn new_place(b: &[u8; 512], n: usize, j: usize) -> bool
    requires { j < 8 }
    ensures { result ≡ new_place b.now n j }
{
    n <= j || (0..j).all(|i| other(b, j, i))
}

// The same of each place.
fn no_two_alike(b: &[u8; 512], n: usize) -> bool
    ensures { result ≡ all_below (new_place b.now n) 8 }
{
    (0..8).all(|j| new_place(b, n, j))
}

// Whether a block is a sound header.
pub fn sound(b: &[u8; 512]) -> bool
    ensures { result ≡ sound_header b.now }
{
    let h = Header::read(b);
    let n = h.networks as usize;
    counts(h)
        & (bytes::sum(b) == 0)
        & beginning(h)
        & numbers(h)
        & rest(b, h)
        & places_sound(b, n)
        & no_two_alike(b, n)
}
