ghost use Rattle.std.specs.Prelude.{◌≡◌, IfOk};
ghost use Rattle.chisel_debit.specs.Hardware.{debit_list, kind_debits, operator_debits};

use crate::known::Known;
use crate::reliability::DebitWalk;
use rely_hard::{Hardware, KindSpec, OpSpec};
use rely_num::List;
use std::alloc::{AllocError, Global};

/// The debits of a hardware's reliabilities, in the hardware's order.
#[derive(Debug, Drop)]
pub struct DebitList {
    /// For each operator those of its kinds.
    pub ops: List<List<u32>>,
    /// For each memory that of a read.
    pub reads: List<u32>,
    /// For each memory that of a write.
    pub writes: List<u32>,
}

/// The debits of a hardware's reliabilities, all by one walk over the powers of its base.
pub fn debits(alloc: Global, h: &Hardware) -> Result<DebitList, AllocError>
    ensures { IfOk result (λ debits. debits ≡ debit_list h.now) }
{
    let known = Known::new(alloc, h.base, reliabilities(alloc, h)?)?;
    let ops = operator_debits(alloc, &known, h.operators.as_slice())?;
    let memories = h.memories.as_slice();
    let reads = memories
        .iter()
        .map(|memory| known.answer(memory.read))
        .collect(alloc)?;
    let writes = memories
        .iter()
        .map(|memory| known.answer(memory.write))
        .collect(alloc)?;
    Ok(DebitList {
        ops: List::from_vec(ops),
        reads: List::from_vec(reads),
        writes: List::from_vec(writes),
    })
}

// The debits of the operators' kinds.
fn operator_debits(
    alloc: Global,
    known: &Known<DebitWalk>,
    operators: &[OpSpec],
) -> Result<Vec<List<u32>>, AllocError>
    ensures { IfOk result (λ debits. debits.items ≡ operator_debits known.now.base operators.now) }
{
    let mut debits = Vec::new(alloc);
    for operator in operators {
        let kinds = kind_debits(alloc, known, operator.kinds.as_slice())?;
        debits.push(List::from_vec(kinds))?;
    }
    Ok(debits)
}

fn kind_debits(
    alloc: Global,
    known: &Known<DebitWalk>,
    kinds: &[KindSpec],
) -> Result<Vec<u32>, AllocError>
    ensures { IfOk result (λ debits. debits.items ≡ kind_debits known.now.base kinds.now) }
{
    kinds
        .iter()
        .map(|kind| known.answer(kind.right))
        .collect(alloc)
}

// All reliabilities of the hardware, in attos. One that were left out would be walked to by itself.
fn reliabilities(alloc: Global, h: &Hardware) -> Result<Vec<u64>, AllocError> {
    let mut rights = Vec::new(alloc);
    for operator in h.operators.as_slice() {
        for kind in operator.kinds.as_slice() {
            rights.push(kind.right.get())?;
        }
    }
    for memory in h.memories.as_slice() {
        rights.push(memory.read.get())?;
        rights.push(memory.write.get())?;
    }
    Ok(rights)
}
