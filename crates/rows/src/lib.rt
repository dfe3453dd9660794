#![tactic(auto)]
// The line of a record, written. Its laws, and those of reading it back as a block, are in proofs/.
ghost use Rattle.std.specs.Prelude.{◌≡◌, [], ◌∷◌, ◌+◌, ◌≤◌, length};
ghost use Rattle.octets.specs.Number.{be32_at};
ghost use Rattle.octets.specs.Run.{Wrote};
ghost use Rattle.rows.specs.Row.{row_of, line_of, numbers_of, numbers_line};
ghost use Rattle.rows.specs.Written.{number_bytes, number_size, names_line, names_size};

use octets::number;
use record::fields;
use record::subscriber::Record;

pub const COMMA: u8 = 44;

// "CR LF"
pub const CR: u8 = 13;

pub const LF: u8 = 10;

// No line is longer: names of 128, 128 and 96 quotes, and 18 numbers of ten digits.
pub const MOST_LINE: usize = 1024;

fn word(b: &[u8], at: usize) -> usize
    requires { at + 4 ≤ length b.now }
    ensures { result ≡ be32_at b.now at }
{
    number::be32(b, at) as usize
}

// The numbers of a record, in the order of their columns.
#[tactic(auto, unfolding(crate::specs::Row::numbers_of))]
fn numbers(b: &[u8; 512]) -> [usize; 18]
    ensures { result ≡ numbers_of b.now }
{
    let bits = octets::byte(b, Record::BITS_AT);
    [
        octets::byte(b, Record::STATE_AT),
        bits % 2,
        bits / 2 % 2,
        bits / 4 % 2,
        octets::byte(b, Record::ROAMING_AT),
        octets::byte(b, Record::MANDATORY_COUNT_AT),
        word(b, Record::MANDATORY_AT),
        word(b, Record::MANDATORY_AT + 4),
        word(b, Record::MANDATORY_AT + 8),
        word(b, Record::MANDATORY_AT + 12),
        octets::byte(b, Record::OPTIONAL_COUNT_AT),
        word(b, Record::OPTIONAL_AT),
        word(b, Record::OPTIONAL_AT + 4),
        word(b, Record::OPTIONAL_AT + 8),
        word(b, Record::OPTIONAL_AT + 12),
        word(b, Record::PROFILE_START_AT),
        number::be16(b, Record::PROFILE_LENGTH_AT) as usize,
        number::be16(b, Record::SET_AT) as usize,
    ]
}

// Writes a number behind a comma.
fn put_number(out: &mut [u8], n: usize) -> usize
    requires { number_size n ≤ length out.old }
    ensures { (result ≤ length out.old) × Wrote (number_bytes n) out.old out.new result }
{
    quoting::put_one(out, COMMA);
    1 + decimals::put(&mut out[1..], n)
}

// Writes the line's end.
fn put_end(out: &mut [u8])
    requires { 2 ≤ length out.old }
    ensures { Wrote (13 ∷ 10 ∷ []) out.old out.new 2 }
{
    out[0] = CR;
    out[1] = LF;
}

// Writes numbers, and the line's end behind them.
fn put_numbers(out: &mut [u8], ns: &[usize]) -> usize
    requires { length (numbers_line ns.now) ≤ length out.old }
    ensures { (result ≤ length out.old) × Wrote (numbers_line ns.now) out.old out.new result }
{
    let mut n = 0;
    for x in ns {
        n += put_number(&mut out[n..], *x);
    }
    put_end(&mut out[n..]);
    n + 2
}

// Writes the names of a record.
fn put_names(out: &mut [u8], a: &[u8], b: &[u8], c: &[u8]) -> usize
    requires { names_size a.now b.now c.now ≤ length out.old }
    ensures { (result ≤ length out.old)
        × Wrote (names_line a.now b.now c.now) out.old out.new result }
{
    let m = quoting::put(out, a);
    quoting::put_one(&mut out[m..], COMMA);
    let n = m + 1;
    let p = n + quoting::put(&mut out[n..], b);
    quoting::put_one(&mut out[p..], COMMA);
    let q = p + 1;
    q + quoting::put(&mut out[q..], c)
}

// Writes the line of a record.
pub fn put_line(out: &mut [u8], b: &[u8; 512]) -> usize
    requires { length (line_of (row_of b.now)) ≤ length out.old }
    ensures { (result ≤ length out.old) × Wrote (line_of (row_of b.now)) out.old out.new result }
{
    let n = put_names(
        out,
        fields::public(b),
        fields::private(b),
        fields::server(b),
    );
    n + put_numbers(&mut out[n..], &numbers(b))
}

// How long the line of a record is: it is written where nobody reads it.
pub fn line_size(b: &[u8; 512]) -> usize
    requires { length (line_of (row_of b.now)) ≤ 1024 }
    ensures { result ≡ length (line_of (row_of b.now)) }
{
    let mut scratch = [0u8; MOST_LINE];
    put_line(&mut scratch, b)
}
