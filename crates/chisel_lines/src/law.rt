ghost use Rattle.chisel_lines.specs.Apart.{NoneForMemory, RefusedAsNamed};

/// A law and no work: a refusal has the status of a text or of a limit, never that of want of memory or of a device, and
/// never the line of want of memory.
#[tactic(auto, using(crate::proofs::Apart::refused_named, crate::proofs::Apart::none_for_memory))]
pub fn memory_is_apart()
    ensures status { RefusedAsNamed }
    ensures line { NoneForMemory }
{}
