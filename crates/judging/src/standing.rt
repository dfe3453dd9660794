// Each line by itself and behind the one before it, in one pass.
ghost use Rattle.std.specs.Prelude.{◌≡◌, true, ◌≤◌, ◌<◌, length};
ghost use Rattle.record.specs.Fields.{public_of};
ghost use Rattle.quoting.specs.Quoted.{listable};
ghost use Rattle.judging.specs.Fit.{Fit};
ghost use Rattle.judging.specs.Passes.{follows, fits_behind, StoodSo};

use octets::{name, run};
use record::header::Header;
use record::{fields, sets, subscriber};
use std::cmp::Ordering;

// Whether the public identity of record k comes after that of the record before, if there is one.
fn follows(a: &[u8; 512], b: &[u8; 512], k: usize) -> bool
    ensures { result ≡ follows a.now b.now k }
{
    if k <= 1 {
        return true;
    }
    matches!(
        name::order_of(fields::public(a), fields::public(b)),
        Ordering::Less
    )
}

// Whether a block that a line says can stand as record k, behind another.
fn fits(a: &[u8; 512], b: &[u8; 512], h: Header, file: usize, k: usize) -> bool
    requires { (h.count ≤ 4096) × (h.networks ≤ 8) × (1 ≤ k) × (k ≤ h.count)
        × (listable (public_of b.now) ≡ true) }
    ensures { result ≡ fits_behind a.now b.now h file k }
{
    let mask = run::mask();
    if subscriber::sound(b, k as u32, h, file, &mask) {
        follows(a, b, k) & importing::above::enough(fields::public(b), h.count as usize - k)
    } else {
        false
    }
}

// How many records from the first on stand in their places, whether none of them nor the next one has a set, and where the last one's line ends: all three
// are there in any case.
#[derive(Clone, Copy)]
pub struct Stood {
    pub records: usize,
    pub setless: bool,
    pub end: usize,
}

// The pass. The places of some lines that stand are kept for the pass over the sets.
pub fn standing(
    list: &[u8],
    header: &[u8; 512],
    file: usize,
    places: &mut [u32; 128],
    a: &mut [u8; 512],
    b: &mut [u8; 512],
) -> Stood
    requires { Fit header.now × (121 ≤ length list.now) }
    ensures { StoodSo list.now header.now file places.new result }
{
    let h = Header::read(header);
    let count = h.count as usize;
    let mut at = saying::FIRST;
    let mut sets: u32 = 0;
    for m in 0..count {
        let size = saying::read(b, list, at, m, header);
        sets = sets | sets::set(b);
        if !fits(a, b, h, file, m + 1) {
            return Stood {
                records: m,
                setless: sets == 0,
                end: at,
            };
        }
        saying::note(places, m, at);
        *a = *b;
        at += size;
    }
    Stood {
        records: count,
        setless: sets == 0,
        end: at,
    }
}
