#![tactic(auto)]
// One request counted: the words of a report over a file of requests, kept as an array of 64-bit numbers.
pub mod results;
pub mod words;

ghost use Rattle.std.specs.Prelude.{◌≡◌, ◌<◌, ◌≤◌};
ghost use Rattle.counting.specs.Counting.{Listed};
ghost use Rattle.counting.specs.Counted.{cell_of};
ghost use Rattle.counting.specs.Counting.{Fits, plus, larger, counted};

use reading::Outcome;

// The words of a report, and their bytes.
pub const WORDS: usize = 145;

pub const BYTES: usize = 1160;

// The first words: requests read, the byte where reading stopped, records altered, the largest answer, answered.
const READ_AT: usize = 0;

pub const STOPPED_AT: usize = 1;

const ALTERED_AT: usize = 2;

const LARGEST_AT: usize = 3;

const ANSWERED_AT: usize = 4;

// A refusal by n has word 4 + n. The cells of commands and results come after refusal 15, so many a row.
const REFUSED_AT: usize = 4;

const CELLS_AT: usize = 20;

const COLUMNS: usize = 25;

// A request that was answered: its command and result, the answer's length, and how many records it altered.
#[derive(Clone, Copy)]
pub struct Entry {
    pub command: usize,
    pub result: Outcome,
    pub length: u32,
    pub altered: u32,
}

// So many more in word i.
fn add(counts: &mut [u64; WORDS], i: usize, a: u64)
    requires { i < 145 }
    ensures { counts.new ≡ plus a i counts.old }
{
    counts[i] = counts[i].wrapping_add(a);
}

// The largest answer so far.
fn keep_larger(counts: &mut [u64; WORDS], n: u64)
    ensures { counts.new ≡ larger n counts.old }
{
    counts[LARGEST_AT] = counts[LARGEST_AT].max(n);
}

// The cell of a command and a result.
fn cell_of(e: Entry) -> usize
    requires { Listed e.result }
    ensures { (result ≡ cell_of (Ok e)) × (result < 145) }
{
    CELLS_AT + (COLUMNS * results::command_row(e.command) + results::column_of(e.result))
}

fn count_answered(counts: &mut [u64; WORDS], e: Entry)
    requires { Listed e.result }
    ensures { counts.new ≡ counted counts.old (Ok e) }
{
    let cell = cell_of(e);
    add(counts, READ_AT, 1);
    add(counts, ALTERED_AT, e.altered as u64);
    keep_larger(counts, e.length as u64);
    add(counts, ANSWERED_AT, 1);
    add(counts, cell, 1);
}

fn count_refused(counts: &mut [u64; WORDS], n: u16)
    requires { n ≤ 15 }
    ensures { counts.new ≡ counted counts.old (Err n) }
{
    add(counts, READ_AT, 1);
    add(counts, REFUSED_AT + (n as usize), 1);
}

// One request more that was read: an answer, or a refusal by its number.
pub fn count(counts: &mut [u64; WORDS], e: Result<Entry, u16>)
    requires { Fits e }
    ensures { counts.new ≡ counted counts.old e }
{
    match e {
        Ok(entry) => count_answered(counts, entry),
        Err(n) => count_refused(counts, n),
    }
}
