//! What an object of the outside tells of what it holds: a list that grows, as long as it tells. The definitions
//! stand in `specs/`; each function here is a law of them, without a body.

ghost use Rattle.base.specs.Growing.{AdditionsJoin, NothingIsAdded};

/// What is told of something to which nothing is added is as it was.
pub fn nothing_is_added<T>()
    ensures { NothingIsAdded T }
{}

/// What is added by one call and then by another is added by both together, in this order.
pub fn additions_join<T>()
    ensures { AdditionsJoin T }
{}
