#![tactic(auto)]
// Names of a list: quoted, the quote doubled; written and read.
ghost use Rattle.std.specs.Prelude.{◌≡◌, false, [], ◌∷◌, ◌++◌, ◌+◌, ◌*◌, ◌<◌, ◌≤◌, length, get_or, drop, MatchOption};
ghost use Rattle.std.specs.Bool.{⊤};
ghost use Rattle.octets.specs.Run.{Wrote};
ghost use Rattle.quoting.specs.Quoted.{is_listed, listable, listed_byte, width, doubled, quoted, quoted_size, closes_at, name_from};
ghost use Rattle.quoting.specs.Quoted.{name_in, as_name, taken};

const QUOTE: u8 = b'"';

// A name that was read: how many bytes it takes in the list, and how long it is.
#[derive(Clone, Copy)]
pub struct Name {
    pub size: usize,
    pub length: usize,
}

// "bytes outside 32 to 126 refused"
fn is_listed(x: u8) -> bool
    ensures { result ≡ is_listed x }
{
    matches!(x, 32..=126)
}

// Whether a name can be listed.
pub fn listable(name: &[u8]) -> bool
    ensures { result ≡ listable name.now }
{
    for x in name {
        if !is_listed(*x) {
            return false;
        }
    }
    true
}

// How many bytes a byte of a name takes in the list.
fn width(x: u8) -> usize
    ensures { (result ≡ width x) × (1 ≤ result) × (result ≤ 2) }
{
    if x == QUOTE { 2 } else { 1 }
}

// How many bytes a name takes in the list, with its quotes.
pub fn size(name: &[u8]) -> usize
    requires { length name.now ≤ 255 }
    ensures { (result ≡ quoted_size name.now) × (result ≤ 512) }
{
    let mut n = 0;
    for x in name {
        n += width(*x);
    }
    n + 2
}

// Writes a byte.
pub fn put_one(out: &mut [u8], x: u8)
    requires { 1 ≤ length out.old }
    ensures { Wrote (x ∷ []) out.old out.new 1 }
{
    out[0] = x;
}

// Writes a byte of a name.
fn put_byte(out: &mut [u8], x: u8) -> usize
    requires { length (listed_byte x) ≤ length out.old }
    ensures { (result ≤ length out.old) × Wrote (listed_byte x) out.old out.new result }
{
    let n = width(x);
    out[..n].fill(x);
    n
}

// Writes a name without the quotes around it.
fn put_doubled(out: &mut [u8], name: &[u8]) -> usize
    requires { length (doubled name.now) ≤ length out.old }
    ensures { (result ≤ length out.old) × Wrote (doubled name.now) out.old out.new result }
{
    let mut n = 0;
    for x in name {
        n += put_byte(&mut out[n..], *x);
    }
    n
}

// Writes a name and the quote that closes it.
fn put_closed(out: &mut [u8], name: &[u8]) -> usize
    requires { length (doubled name.now) + 1 ≤ length out.old }
    ensures { (result ≤ length out.old) × Wrote (doubled name.now ++ (34 ∷ [])) out.old out.new result }
{
    let n = put_doubled(out, name);
    put_one(&mut out[n..], QUOTE);
    n + 1
}

// Writes a name in its quotes.
pub fn put(out: &mut [u8], name: &[u8]) -> usize
    requires { quoted_size name.now ≤ length out.old }
    ensures { (result ≡ quoted_size name.now) × Wrote (quoted name.now) out.old out.new result }
{
    put_one(out, QUOTE);
    1 + put_closed(&mut out[1..], name)
}

// Whether the byte at a place closes a name: a quote that no other follows.
fn closes(s: &[u8], i: usize) -> bool
    requires { i < length s.now }
    ensures { result ≡ closes_at s.now i }
{
    (s[i] == QUOTE) & (octets::byte_or_zero(s, i + 1) != QUOTE)
}

// The place after the byte of a name that is listed at a place.
fn after(s: &[u8], i: usize) -> usize
    requires { (i < length s.now) × (closes_at s.now i ≡ false) }
    ensures { (result ≡ i + width (get_or s.now i 0)) × (i < result) × (result ≤ length s.now) }
{
    i + width(s[i])
}

// The name that goes on behind an opening quote.
fn behind_quote(s: &[u8]) -> Option<Name>
    requires { 1 ≤ length s.now }
    ensures { result ≡ as_name (name_from false (drop 1 s.now)) }
{
    let mut i = 1;
    let mut length = 0;
    // By place: a quote of the name takes two bytes.
    while i < s.len() {
        if closes(s, i) {
            return Some(Name {
                size: i + 1,
                length,
            });
        }
        if !is_listed(s[i]) {
            return None;
        }
        i = after(s, i);
        length += 1;
    }
    None
}

// A name in quotes at the front of a slice, of at most so many bytes.
pub fn read(s: &[u8], most: usize) -> Option<Name>
    ensures { (result ≡ as_name (name_in most s.now)) × MatchOption result ⊤ (λ n. n.size ≤ 2 * most + 2) }
{
    if s.len() == 0 {
        return None;
    }
    if s[0] != QUOTE {
        return None;
    }
    let n = behind_quote(s)?;
    if n.length <= most { Some(n) } else { None }
}

// Copies n bytes of a name that are listed at the front of a slice, each doubled quote once.
pub fn copy(out: &mut [u8], s: &[u8], n: usize)
    requires { (n ≤ length out.old) × (n ≤ 255) }
    ensures { Wrote (taken n s.now) out.old out.new n }
{
    let mut i = 0;
    for y in &mut out[..n] {
        let x = octets::byte_or_zero(s, i);
        *y = x;
        i += width(x);
    }
}
