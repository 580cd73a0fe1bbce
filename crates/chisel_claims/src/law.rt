ghost use Rattle.chisel_claims.specs.Promises.{CalleesAccepted, FailsUnaccepted, FunctionHolds, JudgedNear, ReachedHold};

/// A law and no work: where the claims in use of the reached functions are accepted, they hold in every forest of runs, and so
/// does each claim of the function that is accepted. The bound of an undecided claim is between two products near each other.
pub fn accepted_claims_hold()
    ensures callees { CalleesAccepted }
    ensures reached { ReachedHold }
    ensures function { FunctionHolds }
    ensures failing { FailsUnaccepted }
    ensures near { JudgedNear }
{}
