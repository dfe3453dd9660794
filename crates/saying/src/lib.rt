#![tactic(auto)]
// What the lines of a list say, as blocks: read in their order, read again, and written as a table.
ghost use Rattle.std.specs.Prelude.{◌≡◌, ◌+◌, ◌*◌, ◌≤◌, ◌<◌, length, drop, eqb, position};
ghost use Rattle.octets.specs.Run.{Wrote};
ghost use Rattle.importing.specs.Said.{place_of, said_at, table_said};
ghost use Rattle.record.specs.Fields.{count_of};
ghost use Rattle.saying.specs.Noted.{noted, Noted};
ghost use Rattle.saying.specs.Passed.{line_size};
ghost use Rattle.saying.specs.Records.{records_said};

use blocks::BLOCK;
use octets::{number, run};
use record::header::Header;
use rows::LF;

// Where the first record's line begins.
pub const FIRST: usize = 121;

// Of so many lines one has its place kept.
const STEP: usize = 32;

// The block of record n + 1, whose line begins at a place, and how long that line is. Where no line of a list stands, zeros are said and nothing is passed over.
pub fn read(out: &mut [u8; 512], list: &[u8], at: usize, n: usize, header: &[u8; 512]) -> usize
    requires { (n < 4096) × (at ≡ place_of list.now n) × (at ≤ length list.now) }
    ensures { (out.new ≡ said_at list.now header.now (n + 1)) × (at + result ≡ place_of list.now (n + 1))
        × (at + result ≤ length list.now) }
{
    let issue = number::be32(header, Header::ISSUE_AT) as usize;
    match parsing::block::read(out, &list[at..], n + 1, issue) {
        Some(size) => size,
        None => {
            *out = [0; BLOCK];
            0
        }
    }
}

// Keeps the place of the line behind n records, if it is one of those that are kept.
pub fn note(places: &mut [u32; 128], n: usize, at: usize)
    requires { (n < 4096) × (at < 4294967296) }
    ensures { places.new ≡ noted places.old n at }
{
    if n % STEP == 0 {
        places[n / STEP] = at as u32;
    }
}

fn wide(x: u32) -> usize
    ensures { result ≡ x }
{
    x as usize
}

// How many bytes stand before the first LF, if there is one.
fn before_lf(s: &[u8]) -> Option<usize>
    ensures { result ≡ position (λ x. eqb x 10) s.now }
{
    s.iter().position(|x| *x == LF)
}

// The place behind the line at a place, of which the LF alone is looked for.
fn past(list: &[u8], at: usize) -> usize
    requires { at ≤ length list.now }
    ensures { (result ≡ at + line_size (drop at list.now)) × (result ≤ length list.now) }
{
    match before_lf(&list[at..]) {
        Some(i) => at + i + 1,
        None => list.len(),
    }
}

// The block of record k once more. From the last place kept before it lines are passed over, none of which is missing.
pub fn again(out: &mut [u8; 512], list: &[u8], places: &[u32; 128], k: usize, header: &[u8; 512])
    requires { (1 ≤ k) × (k ≤ 4096) × (121 ≤ length list.now) × Noted list.now places.now k }
    ensures { out.new ≡ said_at list.now header.now k }
{
    let last = k - 1;
    let i = last / STEP;
    let mut at = wide(places[i]);
    for _n in STEP * i..last {
        at = past(list, at);
    }
    read(out, list, at, last, header);
}

// Writes the blocks of the first records.
fn put_records(out: &mut [u8], list: &[u8], count: usize, header: &[u8; 512])
    requires { (count ≤ 4096) × (512 * count ≤ length out.old) × (121 ≤ length list.now) }
    ensures { Wrote (records_said list.now header.now count) out.old out.new (512 * count) }
{
    let mut b = [0u8; BLOCK];
    let mut at = FIRST;
    for n in 0..count {
        at += read(&mut b, list, at, n, header);
        run::copy(&mut out[BLOCK * n..], &b);
    }
}

// Writes the table that a list says.
pub fn put_table(out: &mut [u8], list: &[u8], count: usize, header: &[u8; 512])
    requires { (count ≡ count_of header.now) × (count ≤ 4096) × (512 * (count + 1) ≤ length out.old)
        × (121 ≤ length list.now) }
    ensures { Wrote (table_said list.now header.now) out.old out.new (512 * (count + 1)) }
{
    run::copy(out, header);
    put_records(&mut out[BLOCK..], list, count, header);
}
