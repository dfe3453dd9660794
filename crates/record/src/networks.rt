// The eight places of visited networks in the header block.
ghost use Rattle.std.specs.Prelude.{◌≡◌, ◌≤◌, ◌<◌};
ghost use Rattle.record.specs.Networks.{place_at, used_place, sound_place, other_place, new_place, sound_networks};

use crate::header::Header;
use octets::run;

// "eight places of 32: a length 1 to 31, then the visited network's name"
const PLACES: usize = 8;

const PLACE: usize = 32;

const MOST_NAME: usize = 31;

// Where place i begins.
pub fn place(i: usize) -> usize
    requires { i < 8 }
    ensures { (result ≡ place_at i) × (result ≤ 368) }
{
    Header::PLACES_AT + PLACE * i
}

// A place in use: its length, and zeros after the name.
fn used(b: &[u8; 512], i: usize) -> bool
    requires { i < 8 }
    ensures { result ≡ used_place b.now i }
{
    let at = place(i);
    let n = octets::byte(b, at);
    (1 <= n) & (n <= MOST_NAME) & run::zero_between(b, at + 1 + n, at + PLACE)
}

// Place i of a header with n networks.
fn sound_place(b: &[u8; 512], n: usize, i: usize) -> bool
    requires { i < 8 }
    ensures { result ≡ sound_place b.now n i }
{
    if i < n {
        used(b, i)
    } else {
        let at = place(i);
        run::zero_between(b, at, at + PLACE)
    }
}

// Place i holds another name than place j.
fn other(b: &[u8; 512], j: usize, i: usize) -> bool
    requires { (i < 8) × (j < 8) }
    ensures { result ≡ other_place b.now j i }
{
    let (x, y) = (place(i), place(j));
    b[x..x + PLACE] != b[y..y + PLACE]
}

// Place j holds another name than each place before it, if it is in use: most headers use few places, and only those are compared.
fn new_place(b: &[u8; 512], n: usize, j: usize) -> bool
    requires { j < 8 }
    ensures { result ≡ new_place b.now n j }
{
    n <= j || (0..j).all(|i| other(b, j, i))
}

// Whether the places of a header with n networks are sound: each by itself, and "no two alike".
pub fn sound(b: &[u8; 512], n: usize) -> bool
    ensures { result ≡ sound_networks b.now n }
{
    (0..PLACES).all(|i| sound_place(b, n, i)) && (0..PLACES).all(|j| new_place(b, n, j))
}
