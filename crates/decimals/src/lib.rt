#![tactic(auto)]
// Numbers in decimal, written and read, without sign and without leading zero.
ghost use Rattle.std.specs.Prelude.{◌≡◌, ◌+◌, ◌-◌, ◌*◌, ◌%◌, ◌≤◌, length, MatchOption};
ghost use Rattle.std.specs.Bool.{⊤};
ghost use Rattle.octets.specs.Run.{Wrote};
ghost use Rattle.decimals.specs.Decimal.{digit_count, decimal, is_digit, past_digits, value_of, number_in, as_number};

// No number here has more digits.
const MOST: usize = 10;

// A number that was read, and how many digits it has.
#[derive(Clone, Copy)]
pub struct Number {
    pub size: usize,
    pub value: usize,
}

// How many digits a number has.
pub fn size(n: usize) -> usize
    ensures { (result ≡ digit_count n) × (1 ≤ result) × (result ≤ 10) }
{
    let mut rest = n;
    for size in 1..MOST {
        if rest < 10 {
            return size;
        }
        rest /= 10;
    }
    MOST
}

// The byte of the last digit of a number.
fn last_digit(n: usize) -> u8
    ensures { result ≡ 48 + n % 10 }
{
    b'0' + (n % 10) as u8
}

// Writes a number: the last digit first, since it is the first at hand.
pub fn put(out: &mut [u8], n: usize) -> usize
    requires { digit_count n ≤ length out.old }
    ensures { (result ≡ digit_count n) × Wrote (decimal n) out.old out.new result }
{
    let size = size(n);
    let mut rest = n;
    for i in (0..size).rev() {
        out[i] = last_digit(rest);
        rest /= 10;
    }
    size
}

// Whether a byte is a digit.
fn is_digit(x: u8) -> bool
    ensures { result ≡ is_digit x }
{
    matches!(x, b'0'..=b'9')
}

// A number with a digit more.
fn with_digit(value: usize, x: u8) -> usize
    requires { (value ≤ 230000000000) × (48 ≤ x) }
    ensures { result ≡ value * 10 + (x - 48) }
{
    value * 10 + usize::from(x - b'0')
}

// How many of the first ten bytes are digits, up to the first that is none, and the number that they make.
fn digits(s: &[u8]) -> Number
    ensures { (result.size ≡ past_digits s.now 10 0) × (result.value ≡ value_of s.now result.size) × (result.size ≤ 10) }
{
    let mut value = 0;
    for size in 0..MOST {
        let x = octets::byte_or_zero(s, size);
        if !is_digit(x) {
            return Number { size, value };
        }
        value = with_digit(value, x);
    }
    Number { size: MOST, value }
}

// A number at the front of a slice, of at most so much.
pub fn read(s: &[u8], most: usize) -> Option<Number>
    ensures { (result ≡ as_number (number_in most s.now)) × MatchOption result ⊤ (λ n. n.size ≤ 10) }
{
    let d = digits(s);
    if size(d.value) == d.size && d.value <= most {
        Some(d)
    } else {
        None
    }
}
