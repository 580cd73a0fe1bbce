//! Measures the optimiser on made tables: the ascent, the search, the texts of certificates and the checker.
//!
//! It prints counts and no times, which are taken from outside: `time chisel_bench wide check deep`. Each work contains
//! those before it, so that a step's time is a difference. Without words it goes through a small table.
#![tactic(auto)]

mod made;
mod shapes;
mod work;

use shapes::task;
use std::alloc::{AllocError, Global};
use std::rt::Env;
use std::{env, io};
use work::measure;

/// The words after the program's name.
fn words<R: Env + AllocGlobal>(rt: &R, alloc: Global) -> io::Result<Vec<String>> {
    let mut words = Vec::new(alloc);
    for word in env::args(rt)?.skip(1) {
        words.push(word)?;
    }
    Ok(words)
}

fn main(rt: HostRuntime) -> io::Result<()> {
    let words = words(&rt, rt.alloc())?;
    measure(&rt, rt.alloc(), &task(&words))
}
