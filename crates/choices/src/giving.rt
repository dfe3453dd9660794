// What a decision gives the answer to carry, made. But for `faulty`, no AVP of the request is at fault; but for `challenging`, no vector is sent.
ghost use Rattle.std.specs.Prelude.{◌≡◌};
ghost use Rattle.choices.specs.Given.{given_fault, given_plain, given_server, given_capable, given_user, given_sent};

use crate::Given;
use reading::{Outcome, Verdict, base};
use vectors::choice::Sent;

// A verdict alone, with the AVP at fault or the kind that is missing.
pub fn faulty(verdict: Verdict) -> Given
    ensures { result ≡ given_fault verdict }
{
    Given {
        verdict,
        user: 0,
        public: 0,
        server: 0,
        capable: 0,
        profile: 0,
        sent: vectors::choice::none(),
    }
}

// A result alone.
pub fn plain(res: Outcome) -> Given
    ensures { result ≡ given_plain res }
{
    faulty(Verdict {
        result: res,
        place: 0,
        lacks: 0,
    })
}

// A result with the server name that block k stores.
pub fn serving(res: Outcome, k: u32) -> Given
    ensures { result ≡ given_server res k }
{
    Given {
        server: k,
        ..plain(res)
    }
}

// A result with the capabilities of block k.
pub fn capable(res: Outcome, k: u32) -> Given
    ensures { result ≡ given_capable res k }
{
    Given {
        capable: k,
        ..plain(res)
    }
}

// A result with the private identity of block k, and the user data of a block (0: none).
pub fn assigned(res: Outcome, k: u32, profile: u32) -> Given
    ensures { result ≡ given_user res k profile }
{
    Given {
        user: k,
        profile,
        ..plain(res)
    }
}

// A success with both identities of block k, and vectors.
pub fn challenging(k: u32, sent: Sent) -> Given
    ensures { result ≡ given_sent k sent }
{
    Given {
        user: k,
        public: k,
        sent,
        ..plain(Outcome::Base(base::SUCCESS))
    }
}
