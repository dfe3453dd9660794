#![tactic(auto)]
// Reading a request: the kinds of AVPs, and rules (c) to (h) for one AVP.

pub mod base;
pub mod experimental;
pub mod features;
pub mod group;
pub mod kinds;
pub mod plain;
pub mod rules;

ghost use Rattle.std.specs.Prelude.{◌≡◌};
ghost use Rattle.reading.specs.Verdicts.{number_of, fault_at, fault_of, lack_of};

use crate::group::Group;

// What a call is served under: the application that is spoken, the edition of the base standard that the peer follows, and the features that the server
// supports, a bit for each.
#[derive(Clone, Copy)]
pub struct Terms {
    pub application: u32,
    pub peer: u32,
    pub features: u32,
}

// The two editions: RFC 3588 and RFC 6733.
pub const RFC_3588: u32 = 3588;

pub const RFC_6733: u32 = 6733;

// What a request is read by: the command that it asks for, and the terms of the call.
#[derive(Clone, Copy)]
pub struct Dialect {
    pub command: usize,
    pub terms: Terms,
}

// The commands.
pub const UAR: usize = 300;

pub const SAR: usize = 301;

pub const LIR: usize = 302;

pub const MAR: usize = 303;

pub const UDR: usize = 306;

// "B is a base Result-Code, X an Experimental-Result of vendor 10415. They share numbers and never stand for one another."
#[derive(Clone, Copy)]
pub enum Outcome {
    Base(u32),
    Experimental(u32),
}

// A result's number, B or X.
#[tactic(auto, unfolding(crate::specs::Verdicts::number_of))]
pub fn number_of(o: Outcome) -> u32
    ensures { result ≡ number_of o }
{
    match o {
        Outcome::Base(n) | Outcome::Experimental(n) => n,
    }
}

// A result beside the place of the AVP at fault (0: no AVP of the request is) and the kind that is missing (0: none is): numbers, as the C interface and
// the definitions `fault_of` and `lack_of` have them.
#[derive(Clone, Copy)]
pub struct Verdict {
    pub result: Outcome,
    pub place: usize,
    pub lacks: usize,
}

impl Verdict {
    // The fault of an AVP that begins at a place.
    pub fn at(number: u32, place: usize) -> Verdict
        ensures { result ≡ fault_at number place }
    {
        Verdict {
            result: Outcome::Base(number),
            place,
            lacks: 0,
        }
    }

    // A fault that no AVP of the request has.
    pub fn of(number: u32) -> Verdict
        ensures { result ≡ fault_of number }
    {
        Verdict::at(number, 0)
    }

    // A kind that is missing.
    pub fn lacking(k: usize) -> Verdict
        ensures { result ≡ lack_of k }
    {
        Verdict {
            result: Outcome::Base(base::MISSING_AVP),
            place: 0,
            lacks: k,
        }
    }
}

// What the data of a kind must be: anything; a 4-byte number within limits; so many bytes; the members of a group.
#[derive(Clone, Copy)]
pub enum Content {
    Free,
    Number(u32, u32),
    Sized(usize, usize),
    Members(Group),
}

// What a dialect makes of a kind of AVP. Of the kinds that it names: needed once, optional and once, any number, needed and any number.
#[derive(Clone, Copy)]
pub enum Use {
    Unknown,
    Unnamed,
    Needed,
    Optional,
    Repeated,
    Several,
}

// What is made of a kind in a UAR, in a SAR, in a LIR, in a MAR, and on Sh, whose one command is the UDR.
#[derive(Clone, Copy)]
pub struct Uses {
    pub uar: Use,
    pub sar: Use,
    pub lir: Use,
    pub mar: Use,
    pub udr: Use,
}

// A kind of AVP: its code and vendor, its content, and what is made of it.
#[derive(Clone, Copy)]
pub struct Kind {
    pub code: u32,
    pub vendor: u32,
    pub content: Content,
    pub uses: Uses,
}

// A member of a group: its code and vendor (0: without V), its content, and whether it may come more than once.
#[derive(Clone, Copy)]
pub struct Member {
    pub code: u32,
    pub vendor: u32,
    pub content: Content,
    pub many: bool,
}

// What rules (c) to (h) say of one AVP: it is taken, it is skipped, or it is at fault with this base result, as the definition `rule` says it.
#[derive(Clone, Copy)]
pub enum Ruled {
    Taken,
    Skipped,
    Fault(u32),
}
