// The fields of a line, each in the one form in which it is written.
ghost use Rattle.std.specs.Prelude.{◌≡◌, true, false, ◌+◌, ◌*◌, ◌≤◌, eqb, length, drop, get_or, IfSome, MatchOption};
ghost use Rattle.rows.specs.RowIn.{name_after, number_after, ends_line, numbers_in, limits};
ghost use Rattle.parsing.specs.Parsed.{given, name_behind, number_behind, names_in, as_names, as_numbers, Fitted};

use crate::{Names, Values};
use decimals::Number;
use quoting::Name;
use record::subscriber::Record;
use rows::{COMMA, CR, LF};

const MOST_IDENTITY: usize = Record::MOST_IDENTITY as usize;

const MOST_SERVER: usize = Record::MOST_SERVER as usize;

// The greatest number that each field holds.
const LIMITS: [usize; 18] = [
    255, 1, 1, 1, 255, 255, 4294967295, 4294967295, 4294967295, 4294967295, 255, 4294967295,
    4294967295, 4294967295, 4294967295, 4294967295, 65535, 65535,
];

// What stands behind a comma at a place of a line.
fn behind_comma(s: &[u8], at: usize) -> Option<&[u8]>
    ensures { MatchOption result (eqb (get_or (drop at s.now) 0 0) 44 ≡ false)
        (λ r. (eqb (get_or (drop at s.now) 0 0) 44 ≡ true) × (r.now ≡ drop 1 (drop at s.now))) }
{
    if at < s.len() && s[at] == COMMA {
        Some(&s[at + 1..])
    } else {
        None
    }
}

// A name behind a comma, at a place of a line.
fn name_after(s: &[u8], at: usize, most: usize) -> Option<Name>
    requires { most ≤ 128 }
    ensures { (result ≡ given name_behind (name_after most (drop at s.now))) × IfSome result (λ n. n.size ≤ 2 * most + 3) }
{
    let rest = behind_comma(s, at)?;
    let n = quoting::read(rest, most)?;
    Some(Name {
        size: n.size + 1,
        length: n.length,
    })
}

// A number behind a comma, at a place of a line.
fn number_after(s: &[u8], at: usize, most: usize) -> Option<Number>
    ensures { (result ≡ given number_behind (number_after most (drop at s.now))) × IfSome result (λ n. n.size ≤ 11) }
{
    let rest = behind_comma(s, at)?;
    let n = decimals::read(rest, most)?;
    Some(Number {
        size: n.size + 1,
        value: n.value,
    })
}

// The names at the front of a line.
pub fn names(s: &[u8]) -> Option<Names>
    ensures { (result ≡ given as_names (names_in s.now)) × IfSome result (λ n. (n.numbers ≤ 712) × Fitted n) }
{
    let a = quoting::read(s, MOST_IDENTITY)?;
    let second = a.size;
    let b = name_after(s, second, MOST_IDENTITY)?;
    let third = second + b.size;
    let c = name_after(s, third, MOST_SERVER)?;
    Some(Names {
        public: a.length,
        private: b.length,
        server: c.length,
        second,
        third,
        numbers: third + c.size,
    })
}

// Whether a line ends at a place.
fn ends_line(s: &[u8], at: usize) -> bool
    requires { at ≤ 1000 }
    ensures { result ≡ ends_line (drop at s.now) }
{
    (octets::byte_or_zero(s, at) == CR) & (octets::byte_or_zero(s, at + 1) == LF)
}

// The numbers of a line, which begin at a place.
pub fn numbers(s: &[u8], at: usize) -> Option<Values>
    requires { at ≤ 712 }
    ensures { result ≡ given (as_numbers at) (numbers_in limits (drop at s.now)) }
{
    let mut numbers = [0usize; 18];
    let mut p = at;
    for (i, most) in LIMITS.iter().enumerate() {
        let n = number_after(s, p, *most)?;
        numbers[i] = n.value;
        p += n.size;
    }
    if ends_line(s, p) {
        Some(Values {
            numbers,
            end: p + 2,
        })
    } else {
        None
    }
}
