ghost use Rattle.rely_inputs.specs.Said.{EachIsSaid};

/// A law and no work: in each store of a file a parameter holds the value of the member of its name.
pub fn members()
    ensures { EachIsSaid }
{}
