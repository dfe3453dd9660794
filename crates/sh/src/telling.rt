// What is told: of a success the record and what was asked of it, else the verdict.
ghost use Rattle.std.specs.Prelude.{◌≡◌, ◌≤◌, length, IfOk};
ghost use Rattle.reading.specs.Verdicts.{fault_of};
ghost use Rattle.table.specs.SoundTable.{SoundTable};
ghost use Rattle.sh.specs.Replies.{Tells};
ghost use Rattle.sh.specs.Tell.{telling_of, denial};

use crate::references;
use reading::{Dialect, Outcome, Verdict, base, experimental, kinds};
use requests::places;
use user_data::References;

// A verdict; the block of the record that is told of, 0 for none; what was asked of it.
#[derive(Clone, Copy)]
pub struct Told {
    pub verdict: Verdict,
    pub block: u32,
    pub asked: References,
}

// The verdict that an answer gives.
pub fn verdict_of(g: Result<Told, Verdict>) -> Verdict
    ensures { result ≡ (telling_of g).verdict }
{
    match g {
        Ok(told) => told.verdict,
        Err(verdict) => verdict,
    }
}

// An X result.
fn denial(n: u32) -> Verdict
    ensures { result ≡ denial n }
{
    Verdict {
        result: Outcome::Experimental(n),
        place: 0,
        lacks: 0,
    }
}

// What a request comes to: "unknown identity X5001, then any other data reference X5100".
pub fn tell(req: &[u8], t: &[u8], count: usize, d: Dialect) -> Result<Told, Verdict>
    requires { (20 ≤ length req.now) × (length req.now ≤ 16384) × SoundTable t.now count }
    ensures tells { Tells d req.now t.now count result }
    ensures success { IfOk result (λ told. told.verdict ≡ fault_of 2001) }
{
    let mut found = [0; kinds::KINDS];
    requests::read_sh(req, d, &mut found)?;
    let identity = places::member_of(req, found, kinds::USER_IDENTITY);
    let Some(block) = lookup::find_public(t, count, identity) else {
        return Err(denial(experimental::USER_UNKNOWN));
    };
    let asked = references::references_of(req);
    if asked.other {
        return Err(denial(experimental::USER_DATA_NOT_RECOGNIZED));
    }
    Ok(Told {
        verdict: Verdict::of(base::SUCCESS),
        block,
        asked,
    })
}
