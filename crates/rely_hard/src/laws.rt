ghost use Rattle.rely_hard.specs.Said.{EachIsSaid};

/// A law and no work: each field of the hardware of a file is that of the member with its key.
pub fn members()
    ensures { EachIsSaid }
{}
