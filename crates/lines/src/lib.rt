#![tactic(auto)]
// Words and numbers, as a line of text has them.
ghost use Rattle.std.specs.Prelude.{◌+◌, ◌≤◌, length};
ghost use Rattle.lines.specs.Words.{Number, Words};

use itoa::Buffer;
use octets::run;

// The decimal digits of n.
fn put_number(out: &mut [u8], n: u64) -> usize
    requires { 20 ≤ length out.old }
    ensures { (result ≤ 20) × Number n out.old out.new result }
{
    let mut buffer = Buffer::new();
    let text = buffer.format(n).as_bytes();
    run::copy(out, text);
    text.len()
}

// Words, the digits of n, and words. Copied piece by piece, since the contract says each byte that a program writes.
pub fn put_words(out: &mut [u8], before: &[u8], n: u64, after: &[u8]) -> usize
    requires { length before.now + 20 + length after.now ≤ length out.old }
    ensures { (result ≤ length before.now + 20 + length after.now)
        × Words before.now n after.now out.old out.new result }
{
    let a = before.len();
    run::copy(out, before);
    let e = a + put_number(&mut out[a..], n);
    run::copy(&mut out[e..], after);
    e + after.len()
}
