#![tactic(auto)]
// The row: requests laid end to end, served in turn. Each has its word in one area, and its answer in another, right behind the one before.
ghost use Rattle.std.specs.Prelude.{◌≡◌, ◌≤◌, ◌+◌, ◌*◌, ◌-◌, length};
ghost use Rattle.octets.specs.Run.{Wrote};
ghost use Rattle.table.specs.Area.{size_in};
ghost use Rattle.table.specs.Check.{check_table};
ghost use Rattle.vectors.specs.VectorFile.{check_vectors};
ghost use Rattle.counting.specs.Words.{long_bytes};
ghost use Rattle.calling.specs.Leaves.{call_of};
ghost use Rattle.calling.specs.Lent.{lent};
ghost use Rattle.row_of_calls.specs.Word.{word, call_word};
ghost use Rattle.row_of_calls.specs.Row.{no_room, rowed};
ghost use Rattle.row_of_calls.specs.Leaves.{marks_from, done_from, ended_so, Serves, ServesAt, Rows};

use calling::Shared;
use deciding::Told;
use octets::number;
use reading::{Outcome, Terms, base};
use refusals::Refusal;

// The two ways in which a row does not end well, by their numbers.
const STOPPED: u16 = 7;

const NO_ROOM: u16 = 15;

// The room that an answer must have and the bytes of a word; how many words a row has at most.
const ROOM: usize = 36864;

const WORD: usize = 8;

const MOST: usize = 4294967295;

// What a row comes to: its number, how many requests have a word, whether some request altered a record, and whether one marked a vector.
#[derive(Clone, Copy)]
pub struct Ended {
    pub number: u16,
    pub served: u32,
    pub altered: bool,
    pub marked: bool,
}

// What one call does: how many bytes of its area of answers are used then, whether it altered a record, whether it marked a vector.
#[derive(Clone, Copy)]
struct Done {
    used: usize,
    altered: bool,
    marked: bool,
}

// Where a call stands in its row: what it shares with the others, and how many bytes of `answers` and how many words those before it have.
#[derive(Clone, Copy)]
struct Here {
    shared: Shared,
    used: usize,
    served: usize,
}

// A MAR that succeeds, and nothing else, marks vectors.
fn marks(command: usize, res: Outcome) -> bool
    ensures { result ≡ marks_from command res }
{
    match res {
        Outcome::Base(n) => (command == reading::MAR) & (n == base::SUCCESS),
        Outcome::Experimental(_) => false,
    }
}

// What a call does, from what is said of it.
fn done_of(c: Result<Told, Refusal>) -> Done
    ensures { result ≡ done_from c }
{
    match c {
        Ok(told) => {
            let result = told.result;
            Done {
                used: told.length as usize,
                altered: 0 < told.altered,
                marked: marks(told.command, result),
            }
        }
        Err(_) => Done {
            used: 0,
            altered: false,
            marked: false,
        },
    }
}

// A word from its parts, the highest byte first.
fn put_word(out: &mut [u8], number: u16, place: u16, value: u32)
    requires { 8 ≤ length out.old }
    ensures { Wrote (long_bytes (word number place value)) out.old out.new 8 }
{
    number::put_be32(out, 0, (number as u32) * 65536 + (place as u32));
    number::put_be32(out, 4, value);
}

// The word of a call.
fn put_call(out: &mut [u8], c: Result<Told, Refusal>)
    requires { 8 ≤ length out.old }
    ensures { Wrote (long_bytes (call_word (call_of c))) out.old out.new 8 }
{
    match c {
        Ok(told) => put_word(out, 0, told.place, told.length),
        Err(r) => put_word(out, r.number(), 0, r.value()),
    }
}

// One request, over what is left of `answers` and of `words`, and a table of the exact length.
fn serve_one(
    k: Shared,
    req: &[u8],
    t: &mut [u8],
    file: &[u8],
    v: &mut [u8],
    answers: &mut [u8],
    words: &mut [u8],
) -> Done
    requires { (k.table ≡ check_table t.old (length file.now)) × (k.vectors ≡ check_vectors v.old) × (length t.old ≤ size_in t.old)
        × (8 ≤ length words.old) }
    ensures { Serves (lent req.now t.old file.now v.old answers.old k.terms)
        words.old result t.new v.new answers.new words.new }
{
    let came = calling::call_over(k, req, t, file, v, answers);
    put_call(words, came);
    done_of(came)
}

// The byte behind an answer of so many bytes, which ends within its area.
fn past(used: usize, own: usize, end: usize) -> usize
    requires { used + own ≤ end }
    ensures { result ≡ used + own }
{
    used + own
}

// The same, where it stands: its answer and its word go behind those of the calls before.
fn serve_at(
    h: Here,
    req: &[u8],
    t: &mut [u8],
    file: &[u8],
    v: &mut [u8],
    answers: &mut [u8],
    words: &mut [u8],
) -> Done
    requires { (h.shared.table ≡ check_table t.old (length file.now)) × (h.shared.vectors ≡ check_vectors v.old) × (length t.old ≤ size_in t.old)
        × (h.used ≤ length answers.old) × (8 * h.served + 8 ≤ length words.old) }
    ensures { ServesAt (lent req.now t.old file.now v.old answers.old h.shared.terms)
        words.old h.used h.served result t.new v.new answers.new words.new }
{
    let used = h.used;
    let from = WORD * h.served;
    let d = serve_one(
        h.shared,
        req,
        t,
        file,
        v,
        &mut answers[used..],
        &mut words[from..],
    );
    Done {
        used: past(used, d.used, answers.len()),
        altered: d.altered,
        marked: d.marked,
    }
}

// Whether there is no room for one more: in what is left of `answers`, of `words`, and of the words that a row may have.
fn no_room(answers: usize, words: usize, used: usize, served: usize) -> bool
    requires { (used ≤ answers) × (8 * served ≤ words) × (served ≤ 4294967295) }
    ensures { result ≡ no_room (answers - used) (words - 8 * served) (4294967295 - served) }
{
    (answers - used < ROOM) | ((words - WORD * served < WORD) | (MOST - served == 0))
}

// How a row ends.
fn ends(number: u16, served: usize, altered: bool, marked: bool) -> Ended
    requires { served ≤ 4294967295 }
    ensures { result ≡ ended_so number served altered marked }
{
    Ended {
        number,
        served: served as u32,
        altered,
        marked,
    }
}

// Every request of the file in turn, as far as there is room. By place: each says where the next one begins.
fn run(
    k: Shared,
    requests: &[u8],
    t: &mut [u8],
    file: &[u8],
    v: &mut [u8],
    answers: &mut [u8],
    words: &mut [u8],
) -> Ended
    requires { (k.table ≡ check_table t.old (length file.now)) × (k.vectors ≡ check_vectors v.old) × (length t.old ≤ size_in t.old) }
    ensures { Rows
        (rowed (lent requests.now t.old file.now v.old answers.old k.terms) words.old)
        result t.new v.new answers.new words.new }
{
    let mut at = 0;
    let mut used = 0;
    let mut served = 0;
    let mut altered = false;
    let mut marked = false;
    while at < requests.len() {
        let Some(n) = reporting::first_length(&requests[at..]) else {
            return ends(STOPPED, served, altered, marked);
        };
        if no_room(answers.len(), words.len(), used, served) {
            return ends(NO_ROOM, served, altered, marked);
        }
        let h = Here {
            shared: k,
            used,
            served,
        };
        let d = serve_at(h, &requests[at..at + n], t, file, v, answers, words);
        at += n;
        used = d.used;
        served += 1;
        altered = altered | d.altered;
        marked = marked | d.marked;
    }
    ends(0, served, altered, marked)
}

// The row over a table whose length must be exact: the table and the vectors are checked once.
fn row_table(
    requests: &[u8],
    t: &mut [u8],
    file: &[u8],
    v: &mut [u8],
    answers: &mut [u8],
    words: &mut [u8],
    terms: Terms,
) -> Ended
    requires { length t.old ≤ size_in t.old }
    ensures { Rows
        (rowed (lent requests.now t.old file.now v.old answers.old terms) words.old)
        result t.new v.new answers.new words.new }
{
    let k = Shared {
        table: table::check(t, file.len()),
        vectors: vectors::file::check(v),
        terms,
    };
    run(k, requests, t, file, v, answers, words)
}

// The row over a working area: the table at its front alone is lent on.
pub fn row(
    requests: &[u8],
    t: &mut [u8],
    file: &[u8],
    v: &mut [u8],
    answers: &mut [u8],
    words: &mut [u8],
    terms: Terms,
) -> Ended
    ensures { Rows
        (rowed (lent requests.now t.old file.now v.old answers.old terms) words.old)
        result t.new v.new answers.new words.new }
{
    let n = table::area::table_length(t);
    row_table(requests, &mut t[..n], file, v, answers, words, terms)
}
