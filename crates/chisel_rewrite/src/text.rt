ghost use Rattle.std.specs.Prelude.{◌≡◌, ◌++◌, map, IfOk};
ghost use Rattle.std.specs.List.{AllByRecursion};
ghost use Rattle.rely_num.specs.OpenMarks.{AreOpenMarks};
ghost use Rattle.rely_kernel.specs.Choice.{IsChoice};
ghost use Rattle.rely_kernel.specs.Setting.{marks_of};
ghost use Rattle.chisel_rewrite.specs.Namings.{IsListed, mark_of};
ghost use Rattle.chisel_rewrite.specs.Texts.{back_of, front_of, name_of, named, rewritten, text_of};

use crate::naming::{Naming, namings};
use chisel_table::Choice;
use rely_hard::Hardware;
use rely_kernel::{Kernel, kinds_of};
use std::alloc::{AllocError, Global};

/// What stands before the name.
fn front_of(naming: Naming) -> &'static [u8]
    ensures { result.now ≡ front_of naming }
{
    match naming {
        Naming::Kind(_, _, _) => b".",
        Naming::Memory(_, _) => b" ",
    }
}

/// What stands behind the name.
fn back_of(naming: Naming) -> &'static [u8]
    ensures { result.now ≡ back_of naming }
{
    match naming {
        Naming::Kind(_, _, _) => b" ",
        Naming::Memory(_, _) => b"",
    }
}

fn name_of(h: &Hardware, naming: Naming) -> &[u8]
    requires { IsListed h.now naming }
    ensures { result.now ≡ name_of h.now naming }
{
    match naming {
        Naming::Kind(_, op, option) => kinds_of(h, op)[usize::from(option)].name.as_slice(),
        Naming::Memory(_, option) => h.memories.as_slice()[usize::from(option)].name.as_slice(),
    }
}

/// Adds what stands in the place of a mark.
fn push_name(written: &mut Vec<u8>, h: &Hardware, naming: Naming) -> Result<(), AllocError>
    requires { IsListed h.now naming }
    ensures { IfOk result (λ _. written.new.items ≡ written.old.items ++ text_of h.now naming) }
{
    written.extend_from_slice(front_of(naming))?;
    written.extend_from_slice(name_of(h, naming))?;
    written.extend_from_slice(back_of(naming))?;
    Ok(())
}

/// The text with each of these marks named.
fn named(
    alloc: Global,
    text: &[u8],
    h: &Hardware,
    namings: &[Naming],
) -> Result<Vec<u8>, AllocError>
    requires marks { AreOpenMarks text.now (map mark_of namings.now) }
    requires listed { AllByRecursion (IsListed h.now) namings.now }
    ensures { IfOk result (λ v. v.items ≡ named h.now text.now 0 namings.now) }
{
    let mut written = Vec::new(alloc);
    let mut place = 0;
    for naming in namings {
        let mark = naming.mark();
        written.extend_from_slice(&text[place..mark.from as usize])?;
        push_name(&mut written, h, *naming)?;
        place = mark.to as usize;
    }
    written.extend_from_slice(&text[place..])?;
    Ok(written)
}

/// The source with the choice's kind or memory named at each open mark of its kernel.
///
/// # Errors
///
/// Memory was refused.
#[tactic(auto, using(crate::proofs::Places::sites_chosen, crate::proofs::Places::marks_ready, crate::proofs::Places::options_listed))]
pub fn rewrite(
    alloc: Global,
    text: &[u8],
    k: &Kernel,
    h: &Hardware,
    c: &Choice,
) -> Result<Vec<u8>, AllocError>
    requires marks { AreOpenMarks text.now (marks_of k.now) }
    requires choice { IsChoice k.now h.now c.now.options }
    ensures { IfOk result (λ v. v.items ≡ rewritten text.now k.now h.now c.now.options) }
{
    let namings = namings(alloc, k, c.options.as_slice())?;
    named(alloc, text, h, namings.as_slice())
}
