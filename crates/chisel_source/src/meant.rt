//! The function of a source on a hardware.

ghost use Rattle.std.specs.Prelude.{◌≡◌, Ok, IfOk, IfErr};
ghost use Rattle.rely_kernel.specs.Setting.{marks_of};
ghost use Rattle.rely_resolve.specs.Marked.{AreOpenWhereMarked};
ghost use Rattle.rely_tree.specs.Limits.{IsUnit};
ghost use Rattle.rely_tree.specs.Shape.{unit_shape};
ghost use Rattle.chisel_source.specs.Meaning.{IsMeant, MeaningFails, meaning};

use crate::fault::MeaningFault;
use crate::ready::Meant;
use rely_resolve::resolve;
use rely_tree::Unit;
use std::alloc::Global;

/// The function of that name with those that it reaches, on the hardware of these bytes: the hardware is read first.
pub fn meaning(
    alloc: Global,
    unit: &Unit<'_>,
    function: &str,
    bytes: &[u8],
) -> Result<Meant, MeaningFault>
    requires { IsUnit (unit_shape unit.now) }
    ensures ok { IfOk result (λ m. meaning (unit_shape unit.now) function.now bytes.now ≡ Ok m) }
    ensures valid { IfOk result IsMeant }
    ensures marks { IfOk result (λ m. AreOpenWhereMarked (unit_shape unit.now) (marks_of m.linked.kernel)) }
    ensures err { IfErr result (MeaningFails (meaning (unit_shape unit.now) function.now bytes.now)) }
{
    let hardware = match rely_hard::read(alloc, bytes) {
        Ok(hardware) => hardware,
        Err(fault) => return Err(MeaningFault::Hardware(fault)),
    };
    match resolve(alloc, unit, function, &hardware) {
        Ok(linked) => Ok(Meant { hardware, linked }),
        Err(fault) => Err(MeaningFault::Name(fault)),
    }
}
