// The record block that a line says.
ghost use Rattle.std.specs.Prelude.{◌≡◌, ◌++◌, ◌+◌, ◌-◌, ◌*◌, ◌≤◌, length, drop, replicate};
ghost use Rattle.octets.specs.Run.{Wrote};
ghost use Rattle.quoting.specs.Quoted.{taken};
ghost use Rattle.rows.specs.RowIn.{row_in};
ghost use Rattle.rows.specs.Block.{padded, half_bytes, word_bytes, words_bytes, front_bytes, names_bytes, rest_bytes, unsealed, block_from};
ghost use Rattle.parsing.specs.Parsed.{given, Sized, Fitted, row_taken, row_length, block_over};

use crate::{Names, line};
use octets::{name, run};
use record::subscriber::Record;

// Where fields stand behind the public identity, behind the capabilities and behind the issue number.
const PRIVATE: usize = Record::PRIVATE_AT - Record::PUBLIC_AT;

const SERVER: usize = Record::SERVER_AT - Record::PUBLIC_AT;

const OPTIONAL: usize = Record::OPTIONAL_AT - Record::MANDATORY_AT;

const PROFILE_LENGTH: usize = Record::PROFILE_LENGTH_AT - Record::MANDATORY_AT;

const REST: usize = Record::REST_AT - Record::ISSUE_AT;

// Zeros up to the check word, and in its place.
const ZEROS: usize = 512 - Record::REST_AT;

// Kind 2, edition 2, the block's number, and the numbers and lengths that are bytes.
fn put_front(out: &mut [u8], k: usize, n: Names, ns: &[usize; 18])
    requires { (16 ≤ length out.old) × Sized ns.now × Fitted n }
    ensures { Wrote (front_bytes k ns.now n.public n.private n.server) out.old out.new 16 }
{
    out[Record::KIND_AT] = Record::KIND;
    out[Record::EDITION_AT] = Record::SECOND_EDITION;
    out[Record::BLANK_AT] = 0;
    out[3] = 0;
    out[Record::NUMBER_AT] = (k / 16777216 % 256) as u8;
    out[5] = (k / 65536 % 256) as u8;
    out[6] = (k / 256 % 256) as u8;
    out[7] = (k % 256) as u8;
    out[Record::STATE_AT] = ns[0] as u8;
    out[Record::BITS_AT] = (ns[1] + 2 * ns[2] + 4 * ns[3]) as u8;
    out[Record::ROAMING_AT] = ns[4] as u8;
    out[Record::MANDATORY_COUNT_AT] = ns[5] as u8;
    out[Record::OPTIONAL_COUNT_AT] = ns[10] as u8;
    out[Record::PUBLIC_LENGTH_AT] = n.public as u8;
    out[Record::PRIVATE_LENGTH_AT] = n.private as u8;
    out[Record::SERVER_LENGTH_AT] = n.server as u8;
}

// A name of n bytes that is listed at a place, in its field.
fn put_field(out: &mut [u8], s: &[u8], at: usize, n: usize, field: usize)
    requires { (field ≤ length out.old) × (n ≤ field) × (field ≤ 128) }
    ensures { Wrote (padded field (taken n (drop at s.now))) out.old out.new field }
{
    let p = name::smaller(at, s.len());
    quoting::copy(out, &s[p..], n);
    run::clear(&mut out[n..], field - n);
}

// The three names.
fn put_names(out: &mut [u8], s: &[u8], n: Names)
    requires { (352 ≤ length out.old) × Fitted n }
    ensures { Wrote (names_bytes (taken n.public (drop 1 s.now)) (taken n.private (drop (n.second + 2) s.now))
        (taken n.server (drop (n.third + 2) s.now))) out.old out.new 352 }
{
    put_field(out, s, 1, n.public, PRIVATE);
    put_field(&mut out[PRIVATE..], s, n.second + 2, n.private, PRIVATE);
    put_field(
        &mut out[SERVER..],
        s,
        n.third + 2,
        n.server,
        Record::SERVER_FIELD,
    );
}

fn put_word(out: &mut [u8], w: usize)
    requires { 4 ≤ length out.old }
    ensures { Wrote (word_bytes w) out.old out.new 4 }
{
    out[0] = (w / 16777216 % 256) as u8;
    out[1] = (w / 65536 % 256) as u8;
    out[2] = (w / 256 % 256) as u8;
    out[3] = (w % 256) as u8;
}

// Words, one after the other.
fn put_words(out: &mut [u8], ws: &[usize])
    requires { (4 * length ws.now ≤ length out.old) × (length ws.now ≤ 5) }
    ensures { Wrote (words_bytes ws.now) out.old out.new (4 * length ws.now) }
{
    for (i, w) in ws.iter().enumerate() {
        put_word(&mut out[4 * i..], *w);
    }
}

fn put_halves(out: &mut [u8], a: usize, b: usize)
    requires { 4 ≤ length out.old }
    ensures { Wrote (half_bytes a ++ half_bytes b) out.old out.new 4 }
{
    out[0] = (a / 256 % 256) as u8;
    out[1] = (a % 256) as u8;
    out[2] = (b / 256 % 256) as u8;
    out[3] = (b % 256) as u8;
}

// The capabilities, the profile and the set.
fn put_rest(out: &mut [u8], ns: &[usize; 18])
    requires { (40 ≤ length out.old) × Sized ns.now }
    ensures { Wrote (rest_bytes ns.now) out.old out.new 40 }
{
    put_words(out, &ns[6..10]);
    put_words(&mut out[OPTIONAL..], &ns[11..16]);
    put_halves(&mut out[PROFILE_LENGTH..], ns[16], ns[17]);
}

// The issue number, and zeros.
fn put_issue(out: &mut [u8], issue: usize)
    requires { 104 ≤ length out.old }
    ensures { Wrote (word_bytes issue ++ replicate 100 0) out.old out.new 104 }
{
    put_word(out, issue);
    run::clear(&mut out[REST..], ZEROS);
}

// All of a block but its check word.
fn put_unsealed(out: &mut [u8], s: &[u8], n: Names, ns: &[usize; 18], k: usize, issue: usize)
    requires { (length out.old ≡ 512) × Sized ns.now × Fitted n }
    ensures { out.new ≡ unsealed issue k (row_taken s.now n ns.now) }
{
    put_front(out, k, n, ns);
    put_names(&mut out[Record::PUBLIC_AT..], s, n);
    put_rest(&mut out[Record::MANDATORY_AT..], ns);
    put_issue(&mut out[Record::ISSUE_AT..], issue);
}

// The block of a line whose names and numbers are read.
fn put_block(out: &mut [u8; 512], s: &[u8], n: Names, ns: &[usize; 18], k: usize, issue: usize)
    requires { Sized ns.now × Fitted n }
    ensures { out.new ≡ block_from issue k (row_taken s.now n ns.now) }
{
    put_unsealed(out, s, n, ns, k, issue);
    blocks::seal(out);
}

// The block of the line at the front of a slice, and how long that line is. Where there is none, nothing is written.
pub fn read(out: &mut [u8; 512], s: &[u8], k: usize, issue: usize) -> Option<usize>
    ensures { (result ≡ given row_length (row_in s.now)) × (out.new ≡ block_over issue k (row_in s.now) out.old) }
{
    let n = line::names(s)?;
    let ns = line::numbers(s, n.numbers)?;
    put_block(out, s, n, &ns.numbers, k, issue);
    Some(ns.end)
}
