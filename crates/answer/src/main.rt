#![tactic(auto)]
// The answer to the request on standard input, over the files `table`, `profile` and, where it is there, `vectors`: on standard output, and never in a file.
mod said;

use arguments::Program;
use std::rt::Files;

// A request that does not fit is longer than any that is answered, and stays so.
const REQUEST_ROOM: usize = 16400;

// "at most 65,536 bytes each": one byte more shows that a file is longer.
const FILE_ROOM: usize = 65537;

// Writes what is said to the request; none once it is said what could not be read. Where there is no vector file, there are no vectors.
fn answer(rt: &(impl Files + Input + Print + Eprint)) -> Option<()> {
    let mut table = [0u8; FILE_ROOM];
    let mut profile = [0u8; FILE_ROOM];
    let mut vectors = [0u8; FILE_ROOM];
    let mut request = [0u8; REQUEST_ROOM];
    let mut out = [0u8; 36864];
    let t = files::load_whole(rt, b"table", &mut table)?;
    let p = files::load_whole(rt, b"profile", &mut profile)?;
    let v = if files::is_there(rt, b"vectors") {
        files::load_whole(rt, b"vectors", &mut vectors)?
    } else {
        0
    };
    let r = files::load_input(rt, &mut request)?;
    let n = said::answer_to(
        &mut out,
        &request[..r],
        &mut table[..t],
        &profile[..p],
        &mut vectors[..v],
    );
    files::put(rt, &out[..n]);
    Some(())
}

const PROGRAM: Program<'static> = Program {
    name: b"answer",
    help: b"usage: answer <REQUEST\nAnswers one Diameter request from the files table, profile and, where it is there, vectors of this folder. See answer(1).\n",
};

fn main(rt: HostRuntime) {
    if !PROGRAM.has_arguments(&rt) {
        let _ = answer(&rt);
    }
}
