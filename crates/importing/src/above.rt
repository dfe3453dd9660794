// Whether enough names are left above one for the lines that follow.
ghost use Rattle.std.specs.Prelude.{◌≡◌, true, ◌-◌, ◌<◌, ◌≤◌, leb, length, get_or};
ghost use Rattle.quoting.specs.Quoted.{listable};
ghost use Rattle.importing.specs.Above.{above, tildes};

// The greatest byte of a name.
const TILDE: u8 = 126;

const GREATEST: usize = 126;

// Only a name that begins with so many of it is too high.
const HIGH: usize = 126;

fn tildes(name: &[u8]) -> bool
    ensures { result ≡ tildes 126 name.now }
{
    name.starts_with(&[TILDE; HIGH])
}

// How far the byte at a place is from the greatest.
fn below(name: &[u8], i: usize) -> usize
    requires { (i < length name.now) × (listable name.now ≡ true) }
    ensures { (result ≡ 126 - get_or name.now i 0) × (result ≤ 126) }
{
    GREATEST - octets::byte(name, i)
}

// Whether so many names are left above a name that begins so.
fn enough_high(name: &[u8], left: usize) -> bool
    requires { (length name.now ≤ 128) × (left ≤ 4096) × (listable name.now ≡ true) × (tildes 126 name.now ≡ true) }
    ensures { result ≡ leb left (above 128 name.now) }
{
    if name.len() < 127 {
        return true;
    }
    let c = below(name, 126);
    if name.len() < 128 {
        return left <= 96 * c + 95;
    }
    left <= 96 * c + below(name, 127)
}

// Whether so many names, no more than a table has, are left above one.
pub fn enough(name: &[u8], left: usize) -> bool
    requires { (length name.now ≤ 128) × (left ≤ 4096) × (listable name.now ≡ true) }
    ensures { result ≡ leb left (above 128 name.now) }
{
    if tildes(name) {
        enough_high(name, left)
    } else {
        true
    }
}
