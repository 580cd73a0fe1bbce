//! The program: a shelf over files, a sink over standard output, and the top call.
#![tactic(auto)]

use chisel_outside::{Arg, HostShelf, HostSink};
use chisel_top::run;
use std::alloc::Global;
use std::env;
use std::process::ExitCode;
use std::rt::Env;

/// The exit status where the words of the command line can't be had.
const NO_WORDS: u8 = 9;

/// The words after the program's name; there are none where the system gives no name.
fn words<R: Env + AllocGlobal>(rt: &R, alloc: Global) -> Option<Vec<Arg>> {
    let mut words = Vec::new(alloc);
    let mut given = env::args(rt).ok()?;
    let _name = given.next();
    for word in given {
        words.push(Arg::from_string(word)).ok()?;
    }
    Some(words)
}

fn main(rt: HostRuntime) -> ExitCode {
    let Some(words) = words(&rt, rt.alloc()) else {
        return ExitCode::from(NO_WORDS);
    };
    let mut shelf = HostShelf::new(&rt, rt.alloc());
    let mut sink = HostSink::new(&rt);
    ExitCode::from(run(rt.alloc(), words.as_slice(), &mut shelf, &mut sink).code())
}
