// What is said: on standard output, and of a failure on standard error.
use std::fmt::{Display, Formatter};
use std::io::{Cursor, Write};
use std::{fmt, io};

// Bytes as they are written: text as it is, and any other byte by its number.
#[derive(Clone, Copy)]
struct Shown<'a>(&'a [u8]);

impl Display for Shown<'_> {
    fn fmt<W: fmt::Write>(&self, f: &mut Formatter<W>) -> fmt::Result {
        for chunk in self.0.utf8_chunks() {
            let rest = chunk.invalid().escape_ascii();
            write!(f, "{}{rest}", chunk.valid())?;
        }
        Ok(())
    }
}

// The words of an error.
#[derive(Clone, Copy)]
struct Reason<'a>(&'a io::Error);

impl Display for Reason<'_> {
    fn fmt<W: fmt::Write>(&self, f: &mut Formatter<W>) -> fmt::Result {
        let mut cursor = Cursor::new([0u8; 256]);
        let _ = write!(cursor, "{}", self.0);
        let n = cursor.position() as usize;
        let space = cursor.into_inner();
        f.write_str(words(front(&space, n)))
    }
}

// The text that is the first n bytes.
fn front(space: &[u8], n: usize) -> &str {
    str::from_utf8(space.get(..n).unwrap_or(&[])).unwrap_or("")
}

// What stands before the number of an error.
fn words(text: &str) -> &str {
    text.split_once(" (os error ")
        .map_or(text, |(before, _)| before)
}

// A line on standard error: what it is about, and what is said of that.
pub fn say(rt: &impl Eprint, what: &[u8], words: &[u8]) {
    let _ = eprintln!(rt; "{}: {}", Shown(what), Shown(words));
}

// Says on standard error what failed, as the caller names it, and why.
pub fn fail(rt: &impl Eprint, what: &[u8], error: &io::Error) {
    let _ = eprintln!(rt; "{}: {}", Shown(what), Reason(error));
}

// Writes to standard output.
pub fn put(rt: &(impl Print + Eprint), text: &[u8]) {
    if let Err(error) = rt.write_all(text) {
        fail(rt, b"standard output", &error);
    }
}
