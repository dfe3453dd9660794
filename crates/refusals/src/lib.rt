#![tactic(auto)]
// The refusals of a call by their numbers, and those that look at no file: what a request and a buffer must be.
ghost use Rattle.std.specs.Prelude.{◌≡◌, ◌≤◌, length, IfErr};
ghost use Rattle.refusals.specs.Early.{wrong_length, early};
ghost use Rattle.refusals.specs.Numbers.{number_of, value_of, number_tried};

use diameter::message;
use reading::Terms;

// A refusal of a call. Of an unsound table the check blames a block.
#[derive(Clone, Copy, PartialEq, Eq)]
pub enum Refusal {
    UnknownPeer,
    SmallBuffer,
    WrongSize,
    WrongLength,
    NoRequest,
    Unsound(u32),
    UnsoundVectors,
}

// The document's numbers of the two that checks answer.
pub const UNSOUND: u16 = 5;

pub const UNSOUND_VECTORS: u16 = 6;

impl Refusal {
    // Its number in the document.
    pub fn number(self) -> u16
        ensures { result ≡ number_of self }
    {
        match self {
            Refusal::UnknownPeer => 12,
            Refusal::SmallBuffer => 1,
            Refusal::WrongSize => 2,
            Refusal::WrongLength => 3,
            Refusal::NoRequest => 4,
            Refusal::Unsound(_) => UNSOUND,
            Refusal::UnsoundVectors => UNSOUND_VECTORS,
        }
    }

    // What a call returns besides: "5 .. with the first bad block".
    pub fn value(self) -> u32
        ensures { result ≡ value_of self }
    {
        match self {
            Refusal::Unsound(block) => block,
            _ => 0,
        }
    }
}

// "answer buffer under 36,864 bytes"; "request under 20 or over 16,384 bytes"
const ROOM: usize = 36864;

const LEAST: usize = 20;

const MOST: usize = 16384;

// "header length differs from the request's length, or is no multiple of 4"
fn wrong_length(req: &[u8]) -> bool
    requires { 20 ≤ length req.now }
    ensures { result ≡ wrong_length req.now }
{
    (octets::number::be24(req, message::LENGTH_AT) != req.len()) | (req.len() % 4 != 0)
}

// The first refusal that holds, of the five that look at no table.
pub fn early(terms: Terms, req: &[u8], out: &[u8]) -> Result<(), Refusal>
    ensures number { number_tried result ≡ early terms req.now out.now }
    ensures value { IfErr result (λ r. value_of r ≡ 0) }
{
    if (terms.peer != reading::RFC_3588) & (terms.peer != reading::RFC_6733) {
        return Err(Refusal::UnknownPeer);
    }
    if out.len() < ROOM {
        return Err(Refusal::SmallBuffer);
    }
    if (req.len() < LEAST) | (MOST < req.len()) {
        return Err(Refusal::WrongSize);
    }
    if wrong_length(req) {
        return Err(Refusal::WrongLength);
    }
    if req[message::FLAGS_AT] < message::R_BIT {
        return Err(Refusal::NoRequest);
    }
    Ok(())
}
