ghost use Rattle.chisel_rewritten_source.specs.Lexemes.{LexemesAsNamed};
ghost use Rattle.chisel_rewritten_source.specs.Marks.{MarksAreTokens};
ghost use Rattle.chisel_rewritten_source.specs.Meanings.{KernelMeansAsNamed};
ghost use Rattle.chisel_rewritten_source.specs.Sources.{KernelMarksAreTokens, KernelRereadAsNamed};
ghost use Rattle.chisel_rewritten_source.specs.Tokens.{RereadAsNamed};
ghost use Rattle.chisel_rewritten_source.specs.Trees.{KernelReparsedAsNamed};

/// A law and no work: the tokens of a rewritten text of at most 65,536 bytes are those of the source, with each mark
/// named.
#[tactic(auto, using(crate::proofs::Reread::reread_as_named))]
pub fn reread_as_named()
    ensures { RereadAsNamed }
{}

/// A law and no work: those tokens say what the source's say, but for the marks, which give way to names.
#[tactic(auto, using(crate::proofs::Lexemes::lexemes_as_named))]
pub fn lexemes_as_named()
    ensures { LexemesAsNamed }
{}

/// A law and no work: where the tokens of a text spell a tree, each open mark of the tree is one of them, and no name
/// stands right behind the mark of a memory.
#[tactic(auto, using(crate::proofs::MarkTokens::marks_are_tokens))]
pub fn marks_are_tokens()
    ensures { MarksAreTokens }
{}

/// A law and no work: the same of the kernel that a function of the tree means.
pub fn kernel_marks_are_tokens()
    ensures { KernelMarksAreTokens }
{}

/// A law and no work: a source whose kernel's own choice is named in it has the tokens that it had, with each mark named,
/// and they say what they said.
pub fn kernel_reread_as_named()
    ensures { KernelRereadAsNamed }
{}

/// A law and no work: the tokens of a source with a kernel's own choice named in it spell the source's tree with each
/// mark named and the spans moved, they pass no limit that the source's keep, and so they are read as that tree.
pub fn kernel_reparsed_as_named()
    ensures { KernelReparsedAsNamed }
{}

/// A law and no work: what that tree means is what the source means, spans aside, with each open place named.
pub fn kernel_means_as_named()
    ensures { KernelMeansAsNamed }
{}
