ghost use Rattle.rely_verdict.specs.Judged.{FoundIsFirstOutside, NeedsIsFirstOutside, NoneIsWithin, ProductsEnclose, TopIsCounted};
ghost use Rattle.rely_verdict.specs.Soundness.{AcceptedHolds, AcceptedIsMet, BoundByProducts, EachReachedHolds, EachVouchedHolds, MetByProducts, MetHolds, MetOnPaths, ReachedHold, VouchedAtMain, VouchedServe};

/// A law and no work: the bound of a claim holds where each conjunct of the top of its paths has its variables in the needs
/// and its exact product of reliabilities at least the bound: under every setting, wherever the kernel stands in a linked list
/// whose callees keep their bounds. An accepted verdict shows that, and so do the products where no variable is outside the
/// needs. What the top of the paths has, all paths have.
pub fn top_suffices()
    ensures holds { BoundByProducts }
    ensures accepted { AcceptedIsMet }
    ensures products { MetByProducts }
    ensures paths { MetOnPaths }
{}

/// A law and no work: a claim that `judge` vouches for serves the callers of its function. Where the claim in use of each
/// reached function is vouched for under the function's own kinds, those claims hold under each setting of the main function.
pub fn vouched_claims_hold()
    ensures main { VouchedAtMain }
    ensures reached { VouchedServe }
    ensures each { EachVouchedHolds }
{}

/// A law and no work: where the claim in use of each reached function is accepted under the function's own kinds,
/// those claims hold, and an accepted claim of the main function holds with no premise on what it calls.
/// So does one whose products are enough, under each setting.
pub fn accepted_claims_hold()
    ensures reached { ReachedHold }
    ensures each { EachReachedHolds }
    ensures main { AcceptedHolds }
    ensures met { MetHolds }
{}

/// A law and no work: the two rounded products of each conjunct, whatever the verdict, have the exact product between them
/// and are at most two attos apart for each use that it counts. The conjuncts of a claim count all labels of the kernel.
pub fn products_enclose()
    ensures enclose { ProductsEnclose }
    ensures counted { TopIsCounted }
{}

/// A law and no work: the variable of a `needs` verdict depends on no setting and no bound. It is the one that
/// `first_outside` finds, and where that finds none each conjunct names needs alone.
pub fn needs_without_setting()
    ensures verdict { NeedsIsFirstOutside }
    ensures found { FoundIsFirstOutside }
    ensures none { NoneIsWithin }
{}
