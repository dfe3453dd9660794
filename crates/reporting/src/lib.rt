#![tactic(auto)]
// A report over a file of requests laid end to end: each is decided in turn and counted.
ghost use Rattle.std.specs.Prelude.{cond, ◌≡◌, ◌≢◌, ◌≤◌, eqb, length, MatchOption};
ghost use Rattle.table.specs.Check.{check_table};
ghost use Rattle.vectors.specs.VectorFile.{check_vectors};
ghost use Rattle.calling.specs.Lent.{lent};
ghost use Rattle.reporting.specs.Run.{first_length};
ghost use Rattle.reporting.specs.Run.{event_from};
ghost use Rattle.reporting.specs.Counts.{Runs, Counts, Reports};
ghost use Rattle.reporting.specs.Report.{reported_table, reported};

use calling::Shared;
use counting::{Entry, words};
use deciding::Told;
use diameter::message;
use octets::number;
use reading::Terms;
use refusals::Refusal;

// The two ways in which a report does not end well, by their numbers.
const STOPPED: u16 = 7;

const SHORT_AREA: u16 = 15;

// "1 to 3 bytes left, or a header length under 20"
const LEFT: usize = 4;

const LEAST: usize = 20;

// The length of the request that stands first, if one does.
pub fn first_length(s: &[u8]) -> Option<usize>
    ensures { MatchOption result (first_length s.now ≡ 0)
        (λ n. (n ≡ first_length s.now) × (n ≢ 0) × (n ≤ length s.now)) }
{
    if s.len() < LEFT {
        return None;
    }
    let n = number::be24(s, message::LENGTH_AT);
    if (n < LEAST) | (s.len() < n) {
        return None;
    }
    Some(n)
}

// A call as it is counted.
fn event_of(c: Result<Told, Refusal>) -> Result<Entry, u16>
    ensures { result ≡ event_from c }
{
    match c {
        Ok(told) => {
            let result = told.result;
            Ok(Entry {
                command: told.command,
                result,
                length: told.length,
                altered: told.altered,
            })
        }
        Err(r) => Err(r.number()),
    }
}

// One request, decided and counted.
fn count_one(
    counts: &mut [u64; counting::WORDS],
    k: Shared,
    req: &[u8],
    t: &mut [u8],
    file: &[u8],
    v: &mut [u8],
    out: &mut [u8],
)
    requires { (k.table ≡ check_table t.old (length file.now)) × (k.vectors ≡ check_vectors v.old) }
    ensures { Counts (lent req.now t.old file.now v.old out.old k.terms)
        counts.old counts.new t.new v.new out.new }
{
    let came = calling::call_over(k, req, t, file, v, out);
    counting::count(counts, event_of(came));
}

// Every request of the file in turn, by place: each says where the next one begins. Answers the byte where reading stops.
fn run(
    counts: &mut [u64; counting::WORDS],
    k: Shared,
    requests: &[u8],
    t: &mut [u8],
    file: &[u8],
    v: &mut [u8],
    out: &mut [u8],
) -> usize
    requires { (k.table ≡ check_table t.old (length file.now)) × (k.vectors ≡ check_vectors v.old) }
    ensures { Runs (lent requests.now t.old file.now v.old out.old k.terms)
        counts.old counts.new t.new v.new out.new result }
{
    let mut at = 0;
    while at < requests.len() {
        let Some(n) = first_length(&requests[at..]) else {
            return at;
        };
        count_one(counts, k, &requests[at..at + n], t, file, v, out);
        at += n;
    }
    at
}

// How a report ends: well, if the file is used up.
fn ended(stop: usize, length: usize) -> u16
    ensures { result ≡ cond (eqb stop length) 0 7 }
{
    if stop == length { 0 } else { STOPPED }
}

// The whole report, over a table whose length must be exact: the table and the vectors are checked once, and the words are written once, at the end.
fn report_table(
    requests: &[u8],
    t: &mut [u8],
    file: &[u8],
    v: &mut [u8],
    out: &mut [u8],
    area: &mut [u8],
    terms: Terms,
) -> u16
    ensures { Reports
        (reported_table (lent requests.now t.old file.now v.old out.old terms) area.old)
        result t.new v.new out.new area.new }
{
    if area.len() < counting::BYTES {
        return SHORT_AREA;
    }
    let k = Shared {
        table: table::check(t, file.len()),
        vectors: vectors::file::check(v),
        terms,
    };
    let mut counts = [0u64; counting::WORDS];
    let stop = run(&mut counts, k, requests, t, file, v, out);
    counts[counting::STOPPED_AT] = stop as u64;
    words::put_words(area, &counts);
    ended(stop, requests.len())
}

// The report over a working area: the table at its front alone is lent on.
pub fn report(
    requests: &[u8],
    t: &mut [u8],
    file: &[u8],
    v: &mut [u8],
    out: &mut [u8],
    area: &mut [u8],
    terms: Terms,
) -> u16
    ensures { Reports
        (reported (lent requests.now t.old file.now v.old out.old terms) area.old)
        result t.new v.new out.new area.new }
{
    let n = table::area::table_length(t);
    report_table(requests, &mut t[..n], file, v, out, area, terms)
}
