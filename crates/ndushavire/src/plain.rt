// The word of a call of the plain engine.
ghost use Rattle.std.specs.Prelude.{◌≡◌};
ghost use Rattle.calling.specs.Call.{Refused};
ghost use Rattle.plain_calling.specs.Comes.{call_of};
ghost use Rattle.ndushavire.specs.Word.{call_word};

use crate::word;
use plain_deciding::Said;
use refusals::Refusal;

// The word of a refusal, by its number and what is returned besides.
pub fn refusal_word(number: u16, besides: u32) -> u64
    ensures { result ≡ call_word (Refused number besides) }
{
    word::of(number, 0, besides)
}

pub fn call_word(c: Result<Said, Refusal>) -> u64
    ensures { result ≡ call_word (call_of c) }
{
    match c {
        Ok(said) => word::of(0, said.place, said.length),
        Err(r) => refusal_word(r.number(), r.value()),
    }
}
