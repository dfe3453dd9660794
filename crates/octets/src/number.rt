// Big-endian numbers of 16 to 64 bits, read and stored; a word read as the machine has it.
ghost use Rattle.std.specs.Prelude.{◌≡◌, ◌+◌, ◌<◌, ◌≤◌, length};
ghost use Rattle.octets.specs.Number.{be16_at, be24_at, be32_at, be64_at, le32_at, le64_at, put_be24, put_be32};

pub fn be16(s: &[u8], at: usize) -> u32
    requires { at + 2 ≤ length s.now }
    ensures { (result ≡ be16_at s.now at) × (result < 65536) }
{
    u32::from_be_bytes([0, 0, s[at], s[at + 1]])
}

// A length of RFC 3588, of the machine's width because it is compared with places.
pub fn be24(s: &[u8], at: usize) -> usize
    requires { at + 3 ≤ length s.now }
    ensures { (result ≡ be24_at s.now at) × (result < 16777216) }
{
    u32::from_be_bytes([0, s[at], s[at + 1], s[at + 2]]) as usize
}

pub fn be32(s: &[u8], at: usize) -> u32
    requires { at + 4 ≤ length s.now }
    ensures { result ≡ be32_at s.now at }
{
    u32::from_be_bytes([s[at], s[at + 1], s[at + 2], s[at + 3]])
}

// Eight bytes, the first the highest: what a comparison of bytes in their order compares.
pub fn be64(s: &[u8], at: usize) -> usize
    requires { at + 8 ≤ length s.now }
    ensures { result ≡ be64_at s.now at }
{
    usize::from_be_bytes([
        s[at],
        s[at + 1],
        s[at + 2],
        s[at + 3],
        s[at + 4],
        s[at + 5],
        s[at + 6],
        s[at + 7],
    ])
}

// The word at a place with its first byte the lowest, as the machine has it: the four bytes are one load.
pub fn le32(s: &[u8], at: usize) -> u32
    requires { at + 4 ≤ length s.now }
    ensures { result ≡ le32_at s.now at }
{
    u32::from_le_bytes([s[at], s[at + 1], s[at + 2], s[at + 3]])
}

// The same of eight bytes.
pub fn le64(s: &[u8], at: usize) -> usize
    requires { at + 8 ≤ length s.now }
    ensures { result ≡ le64_at s.now at }
{
    usize::from_le_bytes([
        s[at],
        s[at + 1],
        s[at + 2],
        s[at + 3],
        s[at + 4],
        s[at + 5],
        s[at + 6],
        s[at + 7],
    ])
}

// The last three bytes of a number.
pub fn put_be24(s: &mut [u8], at: usize, n: usize)
    requires { at + 3 ≤ length s.old }
    ensures { s.new ≡ put_be24 s.old at n }
{
    s[at..at + 3].copy_from_slice(&n.to_be_bytes()[5..]);
}

pub fn put_be32(s: &mut [u8], at: usize, n: u32)
    requires { at + 4 ≤ length s.old }
    ensures { s.new ≡ put_be32 s.old at n }
{
    s[at..at + 4].copy_from_slice(&n.to_be_bytes());
}
