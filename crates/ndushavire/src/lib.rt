#![tactic(auto)]
// What the daemon calls.
pub mod plain;
pub mod word;

ghost use Rattle.std.specs.Prelude.{cond, ◌≡◌, ◌≤◌};
ghost use Rattle.requests.specs.Request.{under_cx};
ghost use Rattle.calling.specs.Leaves.{call_of};
ghost use Rattle.calling.specs.Lent.{lent};
ghost use Rattle.ndushavire.specs.Word.{check_word, call_word, move_word, take_word, list_word, ended_word};
ghost use Rattle.ndushavire.specs.Promise.{CheckPromise, CheckVectorsPromise, DecidePromise, ReportPromise, RowPromise};
ghost use Rattle.ndushavire.specs.Promise.{ForwardPromise, BackPromise, TakePromise, ExportPromise, ImportPromise, VersionPromise};

use blocks::Checked;
use deciding::Told;
use diameter::codes;
use reading::Terms;
use row_of_calls::Ended;

// The word of a check's answer: a bad block has the refusal's number.
fn check_word(number: u16, c: Checked) -> u64
    ensures { result ≡ check_word number c }
{
    match c {
        Ok(count) => word::of(0, 0, count),
        Err(block) => word::of(number, 0, block),
    }
}

// "A second entry only checks a table against a profile file: it answers the record count, or the number of the first bad block."
#[unsafe(no_mangle)]
pub extern "C" fn ndushavire_check(table: &[u8], profile: &[u8]) -> u64
    ensures { CheckPromise table.now profile.now result }
{
    check_word(
        refusals::UNSOUND,
        table::area::check_area(table, profile.len()),
    )
}

// The check of a vector file, our own entry: refusal 6 of a call does not say which block is bad, and this does.
#[unsafe(no_mangle)]
pub extern "C" fn ndushavire_check_vectors(vectors: &[u8]) -> u64
    ensures { CheckVectorsPromise vectors.now result }
{
    check_word(refusals::UNSOUND_VECTORS, vectors::file::check(vectors))
}

// The word of a call.
fn call_word(c: Result<Told, refusals::Refusal>) -> u64
    ensures { result ≡ call_word (call_of c) }
{
    match c {
        Ok(told) => word::of(0, told.place, told.length),
        Err(r) => word::of(r.number(), 0, r.value()),
    }
}

// "The library takes one Diameter request, the subscriber table, a profile file (read only) and an answer buffer, all lent"; "Vectors come in a third
// lent file"; "The daemon states for each peer which applies"; "The server supports a set of bits .., given by the daemon at each call".
#[unsafe(no_mangle)]
pub extern "C" fn ndushavire_decide(
    request: &[u8],
    table: &mut [u8],
    profile: &[u8],
    vectors: &mut [u8],
    answer: &mut [u8],
    peer: u32,
    features: u32,
) -> u64
    ensures { DecidePromise
        (lent request.now table.old profile.now vectors.old answer.old (under_cx peer features))
        result table.new vectors.new answer.new }
{
    let terms = Terms {
        application: codes::CX,
        peer,
        features,
    };
    call_word(calling::call(request, table, profile, vectors, answer, terms))
}

// "A plain engine beside the quick one": for a reader, not for service. "it returns the same, and leaves the same table and buffer, for every input,
// editions and features included": its promise is that of `ndushavire_decide`.
#[unsafe(no_mangle)]
pub extern "C" fn ndushavire_plain(
    request: &[u8],
    table: &mut [u8],
    profile: &[u8],
    vectors: &mut [u8],
    answer: &mut [u8],
    peer: u32,
    features: u32,
) -> u64
    ensures { DecidePromise
        (lent request.now table.old profile.now vectors.old answer.old (under_cx peer features))
        result table.new vectors.new answer.new }
{
    let terms = Terms {
        application: codes::CX,
        peer,
        features,
    };
    plain::call_word(plain_calling::call(request, table, profile, vectors, answer, terms))
}

// "A report over a file of many requests laid end to end": it is written to an area of its own, as 145 numbers of 64 bits.
#[unsafe(no_mangle)]
pub extern "C" fn ndushavire_report(
    requests: &[u8],
    table: &mut [u8],
    profile: &[u8],
    vectors: &mut [u8],
    answer: &mut [u8],
    report: &mut [u8],
    peer: u32,
    features: u32,
) -> u64
    ensures { ReportPromise
        (lent requests.now table.old profile.now vectors.old answer.old (under_cx peer features))
        report.old
        result table.new vectors.new answer.new report.new }
{
    let terms = Terms {
        application: codes::CX,
        peer,
        features,
    };
    let number = reporting::report(requests, table, profile, vectors, answer, report, terms);
    word::of(number, 0, 0)
}

// The word of a move.
fn move_word(m: Result<u32, moving::Refusal>) -> u64
    ensures { result ≡ move_word m }
{
    match m {
        Ok(moved) => word::of(0, 0, moved),
        Err(r) => word::of(r.number, 0, r.block),
    }
}

// "the move from edition 1 to 2, given an issue number"
#[unsafe(no_mangle)]
pub extern "C" fn ndushavire_forward(table: &mut [u8], profile: &[u8], issue: u32) -> u64
    ensures { ForwardPromise table.old profile.now issue result table.new }
{
    move_word(moving::forward(table, profile.len(), issue))
}

// "and the move back"
#[unsafe(no_mangle)]
pub extern "C" fn ndushavire_back(table: &mut [u8], profile: &[u8]) -> u64
    ensures { BackPromise table.old profile.now result table.new }
{
    move_word(moving::back(table, profile.len()))
}

// The word of a take-over.
fn take_word(t: Result<u32, taking::Refusal>) -> u64
    ensures { result ≡ take_word t }
{
    match t {
        Ok(taken) => word::of(0, 0, taken),
        Err(r) => word::of(r.number, 0, 0),
    }
}

// "A new edition 2 table is written over the working area block by block from block 0"
#[unsafe(no_mangle)]
pub extern "C" fn ndushavire_take(area: &mut [u8], fresh: &[u8], profile: &[u8]) -> u64
    ensures { TakePromise area.old fresh.now profile.now result area.new }
{
    take_word(taking::take(area, fresh, profile.len()))
}

// The word of an export and of an import.
fn list_word(l: Result<u32, listing::Refusal>) -> u64
    ensures { result ≡ list_word l }
{
    match l {
        Ok(bytes) => word::of(0, 0, bytes),
        Err(e) => word::of(e.number, 0, e.value),
    }
}

// "Export a sound edition 2 table as comma-separated lines"
#[unsafe(no_mangle)]
pub extern "C" fn ndushavire_export(table: &[u8], profile: &[u8], list: &mut [u8]) -> u64
    ensures { ExportPromise table.now profile.now list.old result list.new }
{
    list_word(listing::export(table, profile.len(), list))
}

// "Import of an exported list, with the same header block and profile file, gives back the table's bytes."
#[unsafe(no_mangle)]
pub extern "C" fn ndushavire_import(
    list: &[u8],
    header: &[u8],
    profile: &[u8],
    table: &mut [u8],
) -> u64
    ensures { ImportPromise list.now header.now profile.now table.old result table.new }
{
    list_word(billing::import(list, header, profile.len(), table))
}

// A bit of a place, of such a value.
fn bit(set: bool, value: u16) -> u16
    ensures { (result ≡ cond set value 0) × (result ≤ value) }
{
    if set { value } else { 0 }
}

// The word of a row: what it altered is in the place, a bit for records and one for vectors.
fn row_word(e: Ended) -> u64
    ensures { result ≡ ended_word e }
{
    let records = bit(e.altered, 1);
    let vectors = bit(e.marked, 2);
    word::of(e.number, records + vectors, e.served)
}

// The row, our own entry: requests laid end to end, served in turn, at the price of one check of the table and the vectors. Each has in `words` the word that
// `ndushavire_decide` would return, of 8 bytes, the highest first, and its answer, if it has one, in `answers`, right behind the one before.
#[unsafe(no_mangle)]
pub extern "C" fn ndushavire_row(
    requests: &[u8],
    table: &mut [u8],
    profile: &[u8],
    vectors: &mut [u8],
    answers: &mut [u8],
    words: &mut [u8],
    peer: u32,
    features: u32,
) -> u64
    ensures { RowPromise
        (lent requests.now table.old profile.now vectors.old answers.old (under_cx peer features))
        words.old
        result table.new vectors.new answers.new words.new }
{
    let terms = Terms {
        application: codes::CX,
        peer,
        features,
    };
    row_word(row_of_calls::row(requests, table, profile, vectors, answers, words, terms))
}

// Which library was linked, so that a daemon can tell it from the header that it was compiled with: 0.17.0, as NDUSHAVIRE_VERSION_NUMBER has it.
const VERSION: u32 = 1700;

#[unsafe(no_mangle)]
pub extern "C" fn ndushavire_version() -> u32
    ensures { VersionPromise result }
{
    VERSION
}
