//! Sample inputs.

ghost use Rattle.std.specs.Prelude.{◌≡◌, ◌≤◌, List, ℕ, IfOk, length};
ghost use Rattle.std.specs.List.{All};
ghost use Rattle.rely_kernel.specs.Bound.{IsStart};
ghost use Rattle.rely_kernel.specs.Valid.{IsValid};
ghost use Rattle.chisel_files.specs.Front.{starts_work};
ghost use Rattle.chisel_files.specs.Works.{Works};

use crate::fetching::{LONGEST_INPUTS, fetch};
use crate::refused::{fault_on, input_refusal};
use chisel_lines::Fault;
use chisel_outside::Shelf;
use rely_kernel::{Kernel, Store};
use rely_num::List;
use std::alloc::Global;

/// Reads the sample inputs of that name: where the function starts.
pub fn starts<'w, F: Shelf>(
    alloc: Global,
    k: &Kernel,
    inputs: &'w str,
    shelf: &mut F,
) -> Result<List<Store>, Fault<'w>>
    requires { IsValid k.now }
    ensures held { (n : List ℕ) → F.held shelf.new n ≡ F.held shelf.old n }
    ensures works { Works (F.held shelf.old) (F.log shelf.old) (F.log shelf.new) (starts_work k.now inputs.now) result }
    ensures starts { IfOk result (λ ss. All (IsStart k.now) ss) }
    ensures count { IfOk result (λ ss. (1 ≤ length ss) × (length ss ≤ 64)) }
{
    let bytes = match fetch(alloc, shelf, inputs, LONGEST_INPUTS) {
        Ok(bytes) => bytes,
        Err(fault) => return Err(fault),
    };
    match rely_inputs::read(alloc, k, bytes.as_slice()) {
        Ok(starts) => Ok(starts),
        Err(fault) => Err(fault_on(input_refusal(fault))),
    }
}
