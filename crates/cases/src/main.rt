#![tactic(auto)]
// The gate's cases, from standard input: each is called, and its outcome is written. What the independent program says of the same cases
// is this program's expected output. reference/README.md has the form of both, under "Streams".
mod calls;

use streams::case::{Case, Words};

// One case: entry, fill, how many slices and numbers there are, and then their words and the slices. None at the end of the input, or where
// there is no room for a case.
fn one_case(rt: &(impl Input + Print + Eprint)) -> Option<()> {
    let mut head = [0u8; 4];
    streams::fill(rt, &mut head)?;
    let [entry, fill, slices, numbers] = head;
    let slices = usize::from(slices);
    let n = slices + usize::from(numbers);
    if 16 < n {
        return None;
    }
    let mut words = Words([0; 64]);
    streams::fill(rt, &mut words.0[..4 * n])?;
    let mut given = [0u8; 65536];
    words.hold(rt, &mut given, slices, fill)?;
    let case = Case {
        words: &words,
        given: &given,
    };
    calls::call(rt, entry, &case).then_some(())
}

fn main(rt: HostRuntime) {
    for _ in 0..1000000u32 {
        if one_case(&rt).is_none() {
            return;
        }
    }
}
