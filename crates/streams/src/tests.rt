// What is written of an outcome, and what is answered where a write fails.
use crate::outcome::{Lent, put, put_all};
use std::cell::{Cell, RefCell};
use std::fmt::Display;
use std::io;
use std::io::ErrorKind;

// Takes every write but one, which it refuses, and keeps the first 32 bytes.
#[derive(Drop)]
struct Pipe {
    fails: u32,
    writes: Cell<u32>,
    size: Cell<usize>,
    bytes: RefCell<[u8; 32]>,
}

impl Pipe {
    fn new(fails: u32) -> Pipe {
        Pipe {
            fails,
            writes: Cell::new(0),
            size: Cell::new(0),
            bytes: RefCell::new([0; 32]),
        }
    }
}

impl Print for Pipe {
    fn print<D: Display + Drop>(&self, value: D) -> io::Result<()> {
        Err(io::Error::from(ErrorKind::Unsupported))
    }

    fn println<D: Display + Drop>(&self, value: D) -> io::Result<()> {
        Err(io::Error::from(ErrorKind::Unsupported))
    }

    fn write_all(&self, bytes: &[u8]) -> io::Result<()> {
        let writes = self.writes.get().saturating_add(1);
        self.writes.set(writes);
        if writes == self.fails {
            return Err(io::Error::from(ErrorKind::StorageFull));
        }
        let Ok(mut kept) = self.bytes.try_borrow_mut() else {
            return Err(io::Error::from(ErrorKind::ResourceBusy));
        };
        for &byte in bytes {
            let n = self.size.get();
            if n < 32 {
                kept[n] = byte;
                self.size.set(n + 1);
            }
        }
        Ok(())
    }
}

// The word, the zeros, one change: from byte 1 two bytes.
const WHOLE: [u8; 32] = [
    1, 2, 3, 4, 5, 6, 7, 8, 0, 0, 0, 0, 1, 0, 0, 0, 1, 0, 0, 0, 2, 88, 89, 0, 0, 0, 0, 0, 0, 0, 0,
    0,
];

const WORD: u64 = 0x0102030405060708;

fn changed() -> Lent<'static> {
    let mut lent = Lent::new(b"abcd");
    if let Some(middle) = lent.bytes().get_mut(1..3) {
        middle.fill(88);
    }
    if let Some(byte) = lent.bytes().get_mut(2) {
        *byte = 89;
    }
    lent
}

#[test]
fn put_writes_the_outcome(rt: HostRuntime) {
    let (lent, pipe, other) = (changed(), Pipe::new(0), Pipe::new(0));
    assert!(rt; put(&pipe, WORD, &[&lent]).is_ok());
    assert!(rt; put_all(&other, WORD, &[&lent]));
    assert_eq!(rt; pipe.bytes.into_inner(), WHOLE);
    assert_eq!(rt; other.bytes.into_inner(), WHOLE);
}

// The writes are the word, the zeros with the number, and of a change its place, its size and its bytes. Each fails in turn, and nothing follows it.
#[test]
fn put_says_what_failed(rt: HostRuntime) {
    let lent = changed();
    for (fails, size) in [(1, 0), (2, 8), (3, 13), (4, 17), (5, 21)] {
        let pipe = Pipe::new(fails);
        let failed = put(&pipe, WORD, &[&lent, &lent]).err();
        assert_eq!(rt;
            failed.map(|error| error.kind()),
            Some(ErrorKind::StorageFull)
        );
        assert_eq!(rt; pipe.size.get(), size);
    }
}

// The writes are the head, and of a change its head and its bytes. Each fails in turn, and the others are written.
#[test]
fn put_all_goes_on(rt: HostRuntime) {
    let lent = changed();
    for (fails, size) in [(1, 10), (2, 15), (3, 21)] {
        let pipe = Pipe::new(fails);
        assert!(rt; !put_all(&pipe, WORD, &[&lent]));
        assert_eq!(rt; pipe.size.get(), size);
    }
    let pipe = Pipe::new(2);
    assert!(rt; !put_all(&pipe, WORD, &[&lent, &lent]));
    assert_eq!(rt; pipe.size.get(), 25);
}

#[test]
fn put_tells_no_number_cut(rt: HostRuntime) {
    let (lent, pipe) = (changed(), Pipe::new(0));
    let failed = put(&pipe, WORD, &[&lent; 256]).err();
    assert_eq!(rt;
        failed.map(|error| error.kind()),
        Some(ErrorKind::InvalidInput)
    );
    assert_eq!(rt; pipe.size.get(), 0);
    assert!(rt; put(&pipe, WORD, &[&lent; 255]).is_ok());
}
