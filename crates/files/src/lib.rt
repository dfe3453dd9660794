#![tactic(auto)]
// Files and standard input that are read: into memory, or only to learn how long they are. What fails is said on standard error.
mod saying;

ghost use Rattle.std.specs.Prelude.{◌≡◌, ◌≤◌, length, IfOk, IfSome};

pub use saying::{fail, put, say};
use std::fs::File;
use std::io;
use std::io::{ErrorKind, Read};
use std::rt::Files;

// Reads until out is full or the file ends. By index: a turn goes on as far as it has read.
fn fill(from: &mut impl Read, out: &mut [u8]) -> io::Result<usize>
    ensures { IfOk result (λ n. n ≤ length out.new) }
{
    let mut n = 0;
    while n < out.len() {
        match from.read(&mut out[n..])? {
            0 => break,
            more => n += more,
        }
    }
    Ok(n)
}

// Reads to the end, piece by piece, and counts. The turns end, as a proved loop must: 2^47 are more than any file takes.
fn count(from: &mut impl Read) -> io::Result<usize> {
    let mut piece = [0u8; 65536];
    let mut n: usize = 0;
    for turns in 0..140737488355328u64 {
        match from.read(&mut piece)? {
            0 => return Ok(n),
            more => n += more,
        }
    }
    Err(io::Error::from(ErrorKind::FileTooLarge))
}

// A file, open to be read. The system's files have names that are text, and no other can be opened.
fn open<R: Files>(rt: &R, path: &[u8]) -> io::Result<R::File> {
    match str::from_utf8(path) {
        Ok(name) => File::open(rt, name),
        Err(_) => Err(io::Error::from(ErrorKind::InvalidFilename)),
    }
}

// Whether a file is there. Of one that cannot be opened for another reason reading says what is wrong.
pub fn is_there(rt: &impl Files, path: &[u8]) -> bool {
    !open(rt, path).is_err_and(|error| error.kind() == ErrorKind::NotFound)
}

// What was read, or nothing once it is said why.
fn or_said(rt: &impl Eprint, what: &[u8], read: io::Result<usize>) -> Option<usize>
    ensures { IfSome result (λ n. read ≡ Ok n) }
{
    match read {
        Ok(n) => Some(n),
        Err(error) => {
            fail(rt, what, &error);
            None
        }
    }
}

fn load_from(rt: &impl Files, path: &[u8], out: &mut [u8]) -> io::Result<usize>
    ensures { IfOk result (λ n. n ≤ length out.new) }
{
    fill(&mut open(rt, path)?, out)
}

// How many of a file's first bytes were read, as many as out has room for.
pub fn load(rt: &(impl Files + Eprint), path: &[u8], out: &mut [u8]) -> Option<usize>
    ensures { IfSome result (λ n. n ≤ length out.new) }
{
    or_said(rt, path, load_from(rt, path, out))
}

// The length of a whole file that was read. One that leaves no byte of out free may go on, and is too long.
pub fn load_whole(rt: &(impl Files + Eprint), path: &[u8], out: &mut [u8]) -> Option<usize>
    ensures { IfSome result (λ n. n ≤ length out.new) }
{
    let n = load(rt, path, out)?;
    if n < out.len() {
        return Some(n);
    }
    say(rt, path, b"too long");
    None
}

// How many of standard input's first bytes were read, as many as out has room for.
pub fn load_input(rt: &(impl Input + Eprint), out: &mut [u8]) -> Option<usize>
    ensures { IfSome result (λ n. n ≤ length out.new) }
{
    or_said(rt, b"standard input", fill(&mut rt.reader(), out))
}

fn length_of(rt: &impl Files, path: &[u8]) -> io::Result<usize> {
    count(&mut open(rt, path)?)
}

// A file's length.
pub fn measure(rt: &(impl Files + Eprint), path: &[u8]) -> Option<usize> {
    or_said(rt, path, length_of(rt, path))
}
