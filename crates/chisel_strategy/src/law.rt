//! What the orders come to, in words apart from the way in which they are found.
ghost use Rattle.chisel_strategy.specs.Branching.{DecisionIsLargest};
ghost use Rattle.chisel_strategy.specs.Picking.{BestIsFirstLeast};

/// A branching rule answers the first of the largest unfixed decisions, and best first the first part of the least value.
pub fn orders_take_the_first()
    ensures decision { DecisionIsLargest }
    ensures place { BestIsFirstLeast }
{}
