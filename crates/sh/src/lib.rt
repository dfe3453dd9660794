#![tactic(auto)]
// One User-Data-Request over a sound table: read, decided, answered. The table is only read.
pub mod answer;
pub mod references;
pub mod telling;
#[cfg(test)]
mod tests;

ghost use Rattle.std.specs.Prelude.{◌≤◌};
ghost use Rattle.refusals.specs.Passed.{Passed};
ghost use Rattle.table.specs.SoundTable.{SoundTable};
ghost use Rattle.sh.specs.Replies.{Replies};

use reading::Dialect;

// What is said of an answer, as the word of a call has it: its length, and the place of the AVP at fault, 0 where none is.
#[derive(Clone, Copy)]
pub struct Reply {
    pub length: u32,
    pub place: u16,
}

// The answer to a request over a sound table of count records.
pub fn answer_sound(out: &mut [u8], req: &[u8], t: &[u8], count: usize, d: Dialect) -> Reply
    requires { Passed req.now out.old × SoundTable t.now count }
    ensures { Replies d req.now t.now count out.old out.new result }
{
    let told = telling::tell(req, t, count, d);
    let length = answer::answer(out, req, t, count, d.terms, told);
    Reply {
        length: length as u32,
        place: telling::verdict_of(told).place as u16,
    }
}
