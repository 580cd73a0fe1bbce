//! Runs the worked examples of the list on standard input, and prints what the program gives for each.
//!
//! A list is plain text; docs/MAP.md has its lines. The program runs over files in memory, so that a fetch or a put can fail
//! where a case says so.
#![tactic(auto)]

use crate::line::Line;
use crate::setup::Setup;
use crate::show::show;
use anyhow::bail;

mod line;
mod setup;
mod show;

/// Does what the line says: changes what the next run is given, or runs the program and shows the outcome.
fn follow(rt: &impl Print, setup: &mut Setup, line: Line<'_>) -> anyhow::Result<()> {
    match line {
        Line::Comment => {}
        Line::Case(title) => {
            setup.fail_nowhere();
            println!(rt; "case {title}")?;
        }
        Line::File(name) => setup.begin_file(name)?,
        Line::Whole(text) => {
            setup.append(text.as_bytes())?;
            setup.append(b"\n")?;
        }
        Line::Part(text) => setup.append(text.as_bytes())?,
        Line::Times(count, text) => {
            for _ in 0..count {
                setup.append(text.as_bytes())?;
            }
        }
        Line::Byte(byte) => setup.append(&[byte])?,
        Line::Gone(name) => setup.remove_file(name),
        Line::Fetch(number) => setup.fail_fetch(number)?,
        Line::Put(number, taken) => setup.fail_put(number, taken)?,
        Line::Run(words) => {
            let ended = setup.run(words)?;
            println!(rt; "run {words}")?;
            show(rt, &ended)?;
        }
    }
    Ok(())
}

fn main(rt: HostRuntime) -> anyhow::Result<()> {
    let alloc = rt.alloc();
    let mut setup = Setup::new(alloc);
    for (i, text) in rt.lines(alloc).enumerate() {
        let text = text?;
        let Some(line) = Line::read(text.as_str()) else {
            bail!("line {} of the list is in no form", i + 1);
        };
        follow(&rt, &mut setup, line)?;
    }
    Ok(())
}
