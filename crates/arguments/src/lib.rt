#![tactic(auto)]
// The arguments of a program that takes none: `--help` and `--version` are answered, and all others refused.
ghost use Rattle.std.specs.Prelude.{◌≡◌};
ghost use Rattle.arguments.specs.Asked.{asked_by};

use octets::name;
use std::env::{Env, FillError};

// What an argument may ask for.
#[derive(Clone, Copy)]
pub enum Asked {
    Help,
    Version,
}

// What a word asks for, if it is one of the two that are known. A match of byte strings would leave twenty goals.
fn asked_by(word: &[u8]) -> Option<Asked>
    ensures { result ≡ asked_by word.now }
{
    if name::same(word, b"--help") {
        return Some(Asked::Help);
    }
    if name::same(word, b"--version") {
        return Some(Asked::Version);
    }
    None
}

// What the first argument asks for. One that does not fit is none of the known ones.
fn asked_first(rt: &impl Env) -> Option<Asked> {
    let mut space = [0u8; 16];
    let n = rt.arg(1, &mut space).ok()?;
    asked_by(&space[..n])
}

// Whether there is an argument of this number.
fn is_there(rt: &impl Env, number: usize) -> bool {
    let mut space = [0u8; 1];
    !matches!(rt.arg(number, &mut space), Err(FillError::NotPresent))
}

// A program, by its name and what it says of itself.
#[derive(Clone, Copy)]
pub struct Program<'a> {
    pub name: &'a [u8],
    pub help: &'a [u8],
}

impl Program<'_> {
    fn refuse(&self, rt: &impl Eprint) {
        files::say(
            rt,
            self.name,
            b"no arguments are taken but --help or --version alone",
        );
    }

    fn reply(&self, rt: &(impl Print + Eprint), asked: Option<Asked>) {
        match asked {
            Some(Asked::Help) => files::put(rt, self.help),
            Some(Asked::Version) => {
                files::put(rt, self.name);
                files::put(rt, b" 0.17.0\n");
            }
            None => self.refuse(rt),
        }
    }

    // Whether there are arguments. They are answered or refused here, and nothing else is left to do.
    pub fn has_arguments(&self, rt: &(impl Env + Print + Eprint)) -> bool {
        if is_there(rt, 2) {
            self.refuse(rt);
            return true;
        }
        if is_there(rt, 1) {
            self.reply(rt, asked_first(rt));
            return true;
        }
        false
    }
}
