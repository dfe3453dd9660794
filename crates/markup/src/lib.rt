#![tactic(auto)]
// Text written into a buffer, and names in it with the five markup characters of XML escaped. Nothing here knows the protocol.
ghost use Rattle.std.specs.Prelude.{◌≡◌, ◌≤◌, length, [], ◌∷◌};
ghost use Rattle.octets.specs.Run.{Wrote};
ghost use Rattle.markup.specs.Escapes.{escape_of, escaped};

use octets::run;

// Bytes as they are.
pub fn put_text(out: &mut [u8], text: &[u8]) -> usize
    requires { length text.now ≤ length out.old }
    ensures { (result ≡ length text.now) × Wrote text.now out.old out.new result }
{
    run::copy(out, text);
    text.len()
}

// One byte as it is.
pub fn put_byte(out: &mut [u8], x: u8) -> usize
    requires { 1 ≤ length out.old }
    ensures { (result ≡ 1) × Wrote (x ∷ []) out.old out.new result }
{
    out[0] = x;
    1
}

// What is sent for a byte: the five characters are escaped.
fn put_escape(out: &mut [u8], x: u8) -> usize
    requires { length (escape_of x) ≤ length out.old }
    ensures { (result ≤ 6) × Wrote (escape_of x) out.old out.new result }
{
    match x {
        b'&' => put_text(out, b"&amp;"),
        b'<' => put_text(out, b"&lt;"),
        b'>' => put_text(out, b"&gt;"),
        b'"' => put_text(out, b"&quot;"),
        b'\'' => put_text(out, b"&apos;"),
        _ => put_byte(out, x),
    }
}

// A name, escaped.
pub fn put_escaped(out: &mut [u8], name: &[u8]) -> usize
    requires { length (escaped name.now) ≤ length out.old }
    ensures { (result ≤ length out.old) × Wrote (escaped name.now) out.old out.new result }
{
    let mut at = 0;
    for x in name {
        at += put_escape(&mut out[at..], *x);
    }
    at
}
