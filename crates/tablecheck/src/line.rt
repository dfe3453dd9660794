// The line that is written of an answer.
ghost use Rattle.std.specs.Prelude.{◌≤◌, length};
ghost use Rattle.tablecheck.specs.Line.{Line, PastLine, VectorsLine};

use blocks::Checked;
use lines::put_words;

// The line of a table.
pub fn put_line(out: &mut [u8], c: Checked) -> usize
    requires { 40 ≤ length out.old }
    ensures { (result ≤ 40) × Line c out.old out.new result }
{
    match c {
        Ok(n) => put_words(out, b"sound, ", n as u64, b" records\n"),
        Err(k) => put_words(out, b"block ", k as u64, b" is bad\n"),
    }
}

// The line of the bytes past a table in its area.
pub fn put_past_line(out: &mut [u8], n: u64) -> usize
    requires { 70 ≤ length out.old }
    ensures { (result ≤ 70) × PastLine n out.old out.new result }
{
    put_words(out, b"", n, b" bytes past the table were not looked at\n")
}

// The line of a vector file. A function of its own: a common one would take all four texts, and say less.
pub fn put_vectors_line(out: &mut [u8], c: Checked) -> usize
    requires { 50 ≤ length out.old }
    ensures { (result ≤ 50) × VectorsLine c out.old out.new result }
{
    match c {
        Ok(n) => put_words(out, b"vectors sound, ", n as u64, b" blocks\n"),
        Err(k) => put_words(out, b"vector block ", k as u64, b" is bad\n"),
    }
}
