#![tactic(auto)]
// Whether the file `table` is a sound table beside the file `profile`, and `vectors` a sound vector file where it is there: a line each on standard
// output, and never a file.
mod line;

ghost use Rattle.std.specs.Prelude.{◌≡◌, length};

use arguments::Program;
use blocks::Checked;
use std::rt::Files;

// Room for one block more than a table of 4,096 records has, and two more than a vector file has: a file that fills it is longer than any sound one.
// A function, so that only its length is known: the proof would write out an array of zeros.
fn room() -> [u8; 2098176]
    ensures { 2098176 ≡ length result }
{
    [0; 2098176]
}

// How many bytes of the file are past its table, where there are some; none if it cannot be read. It is measured whole, since only its front was read.
fn say_past(rt: &(impl Files + Print + Eprint), table: usize) -> Option<()> {
    let size = files::measure(rt, b"table")?;
    if table < size {
        let mut out = [0u8; 70];
        let n = line::put_past_line(&mut out, (size - table) as u64);
        files::put(rt, &out[..n]);
    }
    Some(())
}

// The table's lines; none if a file cannot be read. Of the profile file only the length counts.
fn check_table(rt: &(impl Files + Print + Eprint)) -> Option<()> {
    let mut space = room();
    let n = files::load(rt, b"table", &mut space)?;
    let t = &space[..n];
    let size = files::measure(rt, b"profile")?;
    let mut out = [0u8; 50];
    let c = table::area::check_area(t, size);
    let n = line::put_line(&mut out, c);
    files::put(rt, &out[..n]);
    match c {
        Ok(_) => say_past(rt, table::area::table_length(t)),
        Err(_) => Some(()),
    }
}

// The vector file's line; none if it cannot be read.
fn check_vectors(rt: &(impl Files + Print + Eprint)) -> Option<()> {
    let mut space = room();
    let n = files::load(rt, b"vectors", &mut space)?;
    let mut out = [0u8; 50];
    let n = line::put_vectors_line(&mut out, vectors::file::check(&space[..n]));
    files::put(rt, &out[..n]);
    Some(())
}

// The lines of both files, up to one that cannot be read. A vector file that is not there has no line.
fn check(rt: &(impl Files + Print + Eprint)) -> Option<()> {
    check_table(rt)?;
    if files::is_there(rt, b"vectors") {
        check_vectors(rt)?;
    }
    Some(())
}

const PROGRAM: Program<'static> = Program {
    name: b"tablecheck",
    help: b"usage: tablecheck\nSays whether the file table is sound beside the file profile, and the file vectors where it is there, all of this folder. See tablecheck(1).\n",
};

fn main(rt: HostRuntime) {
    if !PROGRAM.has_arguments(&rt) {
        let _ = check(&rt);
    }
}
