//! What a run gave, as lines.

use crate::setup::Ended;
use std::io;
use std::io::Write;

/// Prints the bytes and the status: `| TEXT` for a line that ends with a line feed, `> TEXT` for bytes behind the last one.
pub(crate) fn show(rt: &impl Print, ended: &Ended) -> io::Result<()> {
    let mut out = io::writer(rt);
    for line in ended.sink.bytes().split_inclusive(|byte| *byte == b'\n') {
        match line {
            [text @ .., b'\n'] => {
                out.write_all(b"| ")?;
                out.write_all(text)?;
            }
            _ => {
                out.write_all(b"> ")?;
                out.write_all(line)?;
            }
        }
        out.write_all(b"\n")?;
    }
    println!(rt; "status {}", ended.status.code())
}
