ghost use Rattle.chisel_cert.specs.Laws.{ValidIsLeast, WrittenIsRead, ReadIsWritten};

/// A law and no work: the choice of a valid certificate is the least of its table, and where a valid certificate has
/// none, no choice meets every row. Whatever the multipliers, the shape of the tree and the maker.
#[tactic(auto, using(crate::proofs::Sound::valid_least))]
pub fn valid_is_least()
    ensures { ValidIsLeast }
{}

/// A law and no work: each certificate within the limits has one text, which is read as this certificate, and what is
/// read is the text of the certificate that it is read as.
#[tactic(auto, using(crate::proofs::Texts::texts))]
pub fn texts_are_one_to_one()
    ensures written { WrittenIsRead }
    ensures read { ReadIsWritten }
{}
