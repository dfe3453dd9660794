#![tactic(auto)]
// A case as it comes from standard input: its words, its slices, which of them hold noise; and what is written of its outcome.
// reference/README.md has the form of both, under "Streams".
pub mod case;
mod noise;
pub mod outcome;
#[cfg(test)]
mod tests;

// Fills out from standard input, if that has as many bytes more.
pub fn fill(rt: &(impl Input + Eprint), out: &mut [u8]) -> Option<()> {
    (files::load_input(rt, out)? == out.len()).then_some(())
}
