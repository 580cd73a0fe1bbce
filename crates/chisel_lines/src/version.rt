//! The line of the program's name and version.
ghost use Rattle.std.specs.Prelude.{◌≡◌, IfOk};
ghost use Rattle.chisel_lines.specs.Versions.{version_line};

use std::alloc::{AllocError, Global};

/// The name of the program and its version, as `CHANGELOG.md` counts them.
///
/// # Errors
///
/// Memory was refused.
pub fn version_line(alloc: Global) -> Result<Vec<u8>, AllocError>
    ensures { IfOk result (λ v. v.items ≡ version_line) }
{
    Vec::from_slice(alloc, b"chisel 0.1.0\n")
}
