// What is told of a request over a table of one record: of a success the record, of any other verdict nothing.
use crate::telling::{Told, tell};
use diameter::codes;
use reading::{RFC_3588, Terms, Verdict, number_of};

// `a`, not registered.
fn table() -> [u8; 1024] {
    let mut header = [0; 512];
    header[..16].copy_from_slice(&[1, 1, 0, 0, 0, 0, 0, 0, 0, 0, 0, 1, 0, 1, 1, 0]);
    header[16] = b'h';
    header[80] = b'r';
    blocks::seal(&mut header);
    let mut record = [0; 512];
    record[..16].copy_from_slice(&[2, 1, 0, 0, 0, 0, 0, 1, 0, 0, 0, 0, 0, 1, 1, 0]);
    record[16] = b'a';
    record[144] = b'p';
    blocks::seal(&mut record);
    let mut t = [0; 1024];
    t[..512].copy_from_slice(&header);
    t[512..].copy_from_slice(&record);
    t
}

// A User-Data-Request for an identity of one byte, whose Data-Reference is 11, the registration state, or another number.
fn request(identity: u8, data: u8) -> [u8; 156] {
    let mut req = [
        1, 0, 0, 156, 192, 0, 1, 50, 1, 0, 0, 1, 0, 0, 0, 1, 0, 0, 0, 2, 0, 0, 1, 7, 64, 0, 0, 9,
        115, 0, 0, 0, 0, 0, 1, 4, 64, 0, 0, 32, 0, 0, 1, 10, 64, 0, 0, 12, 0, 0, 40, 175, 0, 0, 1,
        2, 64, 0, 0, 12, 1, 0, 0, 1, 0, 0, 1, 21, 64, 0, 0, 12, 0, 0, 0, 1, 0, 0, 1, 8, 64, 0, 0,
        9, 99, 0, 0, 0, 0, 0, 1, 40, 64, 0, 0, 9, 114, 0, 0, 0, 0, 0, 1, 27, 64, 0, 0, 9, 114, 0,
        0, 0, 0, 0, 2, 188, 192, 0, 0, 28, 0, 0, 40, 175, 0, 0, 2, 89, 192, 0, 0, 13, 0, 0, 40,
        175, 0, 0, 0, 0, 0, 0, 2, 191, 192, 0, 0, 16, 0, 0, 40, 175, 0, 0, 0, 0,
    ];
    req[136] = identity;
    req[155] = data;
    req
}

// None where the table is unsound.
fn told_of(req: &[u8; 156]) -> Option<Result<Told, Verdict>> {
    let t = table();
    let count = table::check(&t, 0).ok()? as usize;
    let terms = Terms {
        application: codes::SH,
        peer: RFC_3588,
        features: 0,
    };
    Some(tell(req, &t, count, requests::dialect(req, terms)))
}

#[test]
fn a_success_is_told(rt: HostRuntime) {
    let told = told_of(&request(b'a', 11)).and_then(|told| told.ok());
    assert_eq!(rt; told.map(|told| number_of(told.verdict.result)), Some(2001));
    assert_eq!(rt; told.map(|told| told.block), Some(1));
    assert_eq!(rt;
        told.map(|told| told.asked.state & !told.asked.name),
        Some(true)
    );
}

#[test]
fn a_denial_is_no_success(rt: HostRuntime) {
    for (identity, data, number) in [(b'b', 11, 5001), (b'a', 10, 5100)] {
        let told = told_of(&request(identity, data)).and_then(|told| told.err());
        assert_eq!(rt; told.map(|verdict| number_of(verdict.result)), Some(number));
    }
}
