//! The work that is measured, step by step.
ghost use Rattle.chisel_table.specs.Valid.{IsTable};
ghost use Rattle.chisel_bench.specs.Made.{IsShape};

use crate::made::{Shape, table};
use bumpalo::Bump;
use chisel_bound::ascent;
use chisel_cert::{Cert, read, write};
use chisel_check::{Answer, check};
use chisel_options::Strategy;
use chisel_search::SearchFault;
use chisel_strategy::find_least;
use chisel_table::Table;
use std::alloc::{AllocError, Global};
use std::io;

/// How far the work goes.
#[derive(Clone, Copy, Debug, PartialEq, Eq)]
pub(crate) enum Work {
    Make,
    Ascent,
    Search,
    Read,
    Check,
}

/// A table that is to be made, and what is to be done with it.
#[derive(Clone, Copy)]
pub(crate) struct Task {
    pub(crate) shape: Shape,
    pub(crate) strategy: Strategy,
    pub(crate) work: Work,
}

/// Does the work, and prints what each step comes to.
pub(crate) fn measure(rt: &impl Print, alloc: Global, task: &Task) -> io::Result<()>
    requires { IsShape task.now.shape }
{
    let t = table(alloc, &task.shape)?;
    if task.work == Work::Make {
        return rt.println(format_args!("made"));
    }
    let pool = ascent(alloc, &t)?;
    rt.println(format_args!("vectors {}", pool.vectors.len()))?;
    if task.work == Work::Ascent {
        return Ok(());
    }
    let arena = Bump::new(alloc);
    match find_least(alloc, &arena, &t, &pool, task.strategy) {
        Ok(found) => {
            let nodes = found.cert.nodes;
            rt.println(format_args!("visits {} nodes {nodes}", found.visits))?;
            certify(rt, alloc, &t, &found.cert, task.work)
        }
        Err(SearchFault::Nodes) => {
            rt.println(format_args!("open after {} visits", task.strategy.nodes))
        }
        Err(SearchFault::Memory) => Err(AllocError)?,
    }
}

// The text of a certificate, which is read again and checked.
fn certify(rt: &impl Print, alloc: Global, t: &Table, cert: &Cert<'_>, work: Work) -> io::Result<()>
    requires { IsTable t.now }
{
    if work == Work::Search {
        return Ok(());
    }
    let text = write(alloc, cert)?;
    let arena = Bump::new(alloc);
    let Ok(cert) = read(alloc, &arena, &text) else {
        return rt.println(format_args!("no certificate"));
    };
    rt.println(format_args!("bytes {}", text.len()))?;
    if work == Work::Read {
        return Ok(());
    }
    match check(t, &cert) {
        Answer::Yes => rt.println(format_args!("yes")),
        Answer::No { line, .. } => rt.println(format_args!("no {line}")),
    }
}
