// An outcome: the word, that nothing was altered that may not be, and what changed in each slice that is written to, from the first
// changed byte to the last.
ghost use Rattle.std.specs.Prelude.{◌≡◌, ◌≤◌, ◌<◌, length, take, IfOk};

use octets::number;
use std::io;
use std::io::ErrorKind;

// A slice of a case that an entry writes to: as it was, and in a copy as it is.
#[derive(Drop)]
pub struct Lent<'a> {
    before: &'a [u8],
    space: [u8; 40000],
    ghost within: { length before.now ≤ 40000 },
}

// The first n bytes.
fn front(space: &mut [u8; 40000], n: usize) -> &mut [u8]
    requires { n ≤ 40000 }
    ensures { result.now ≡ take n space.old }
{
    &mut space[..n]
}

// Copies a slice to the front.
fn copy(space: &mut [u8; 40000], before: &[u8])
    requires { length before.now ≤ 40000 }
    ensures { take (length before.now) space.new ≡ before.now }
{
    space[..before.len()].copy_from_slice(before);
}

impl<'a> Lent<'a> {
    pub fn new(before: &'a [u8]) -> Lent<'a>
        requires { length before.now ≤ 40000 }
        ensures { (result.before.now ≡ before.now) × (take (length before.now) result.space ≡ before.now) }
    {
        // Made where it stays: an array that is made first and moved in is copied.
        let mut lent = Lent {
            before,
            space: [0; 40000],
        };
        copy(&mut lent.space, before);
        lent
    }

    // What is written to.
    pub fn bytes(&mut self) -> &mut [u8]
        ensures { result.now ≡ take (length self.old.before.now) self.old.space }
    {
        let n = self.before.len();
        front(&mut self.space, n)
    }

    fn put_change(&self, rt: &impl Print) -> bool {
        put_change(rt, self.before, &self.space)
    }

    // The same, up to the first write that fails.
    fn try_change(&self, rt: &impl Print) -> io::Result<()> {
        let after = &self.space[..self.before.len()];
        let first = first_change(self.before, after);
        let past = past_change(self.before, after, first);
        rt.write_all(&(first as u32).to_be_bytes())?;
        rt.write_all(&((past - first) as u32).to_be_bytes())?;
        rt.write_all(&after[first..past])
    }
}

// The first byte that changed; 0 if none did. By index, as below: the iterators of two slices take twice as long.
fn first_change(before: &[u8], after: &[u8]) -> usize
    requires { length after.now ≡ length before.now }
    ensures { result ≤ length before.now }
{
    for i in 0..before.len() {
        if before[i] != after[i] {
            return i;
        }
    }
    0
}

// Past the last byte that changed, not before from.
fn past_change(before: &[u8], after: &[u8], from: usize) -> usize
    requires { (length after.now ≡ length before.now) × (from ≤ length before.now) }
    ensures { (from ≤ result) × (result ≤ length before.now) }
{
    for i in (from..before.len()).rev() {
        if before[i] != after[i] {
            return i + 1;
        }
    }
    from
}

// What changed in a slice, which lies at the front of after and has room there: where it begins and how long it is, and what it is now. What follows a
// write that failed is tried all the same.
pub fn put_change(rt: &impl Print, before: &[u8], after: &[u8; 40000]) -> bool {
    let Some(after) = after.get(..before.len()) else {
        return false;
    };
    let first = first_change(before, after);
    let past = past_change(before, after, first);
    let mut head = [0u8; 8];
    number::put_be32(&mut head, 0, first as u32);
    number::put_be32(&mut head, 4, (past - first) as u32);
    rt.write_all(&head).is_ok() & rt.write_all(&after[first..past]).is_ok()
}

// Writes the word, four bytes of zeros, since nothing here could alter what is lent to be read, how many changes there are, and the changes, up to the
// first write that fails, whose error is answered. Where there are more changes than a byte can tell, nothing is written.
pub fn put(rt: &impl Print, word: u64, lent: &[&Lent]) -> io::Result<()>
    ensures { IfOk result (λ u. length lent.now < 256) }
{
    let changes = u8::try_from(lent.len()).map_err(|_| ErrorKind::InvalidInput)?;
    rt.write_all(&word.to_be_bytes())?;
    rt.write_all(&[0, 0, 0, 0, changes])?;
    for slice in lent {
        slice.try_change(rt)?;
    }
    Ok(())
}

// Writes the same, and what follows a write that failed too. Answers whether all was written.
pub fn put_all(rt: &impl Print, word: u64, lent: &[&Lent]) -> bool {
    let Ok(changes) = u8::try_from(lent.len()) else {
        return false;
    };
    let mut head = [0u8; 13];
    head[..8].copy_from_slice(&word.to_be_bytes());
    head[12] = changes;
    let mut written = rt.write_all(&head).is_ok();
    for slice in lent {
        written &= slice.put_change(rt);
    }
    written
}
