#![tactic(auto)]
// The first line of a list that no export could hold there.
pub mod members;
pub mod standing;

ghost use Rattle.std.specs.Prelude.{◌≡◌, true, ◌≤◌, length};
ghost use Rattle.importing.specs.Said.{is_titled, first_wrong};
ghost use Rattle.judging.specs.Fit.{Fit};
ghost use Rattle.judging.specs.Passes.{verdict_of};

use blocks::{BLOCK, Checked};
use octets::{name, number};
use record::header::Header;

// Whether a list begins with the first line.
fn titled(list: &[u8]) -> bool
    ensures { result ≡ is_titled list.now }
{
    let to = saying::FIRST.min(list.len());
    name::same(
        &list[0..to],
        b"public,private,server,state,pending,barred,services,roaming,mandatory,m1,m2,m3,m4,optional,o1,o2,o3,o4,start,length,set\r\n",
    )
}

// What it says of a list that m of its records are good and the next one, if there is one, is not; the last good one's line ends at a place.
fn verdict(list: &[u8], count: usize, m: usize, end: usize) -> Checked
    requires { (count ≤ 4096) × (m ≤ count) }
    ensures { result ≡ verdict_of list.now count m end }
{
    let next = m + 1;
    if next <= count {
        return Err(next as u32);
    }
    if end == list.len() {
        return Ok(count as u32);
    }
    Err(next as u32)
}

// The lines of the records: first each in its place, then the sets of those that stand.
fn records(list: &[u8], header: &[u8; 512], file: usize) -> Checked
    requires { Fit header.now × (is_titled list.now ≡ true) }
    ensures { result ≡ first_wrong list.now header.now file }
{
    let count = number::be32(header, Header::COUNT_AT) as usize;
    let mut places = [0u32; 128];
    let mut a = [0u8; BLOCK];
    let mut b = [0u8; BLOCK];
    let s = standing::standing(list, header, file, &mut places, &mut a, &mut b);
    if s.setless {
        return verdict(list, count, s.records, s.end);
    }
    let m = members::agreeing(list, header, &places, s.records, &mut a, &mut b);
    verdict(list, count, m, s.end)
}

// The number of the first wrong line, less one, under a header block and beside a profile file of such a length; the count where there is none.
pub fn first_wrong(list: &[u8], header: &[u8; 512], file: usize) -> Checked
    requires { Fit header.now }
    ensures { result ≡ first_wrong list.now header.now file }
{
    if titled(list) {
        records(list, header, file)
    } else {
        Err(0)
    }
}
