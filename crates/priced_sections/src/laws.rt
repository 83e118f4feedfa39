//! What sections whose facts have prices show. Each function does nothing: its contract is the law.

ghost use Rattle.priced_sections.specs.Laws.{StepsArePaid, EntriesCount, PaidBoundWalks, NoValueNoEnd, PlainIsPaid, PlainValueIsPaid, PaidAnswersAreOne};
ghost use Rattle.priced_sections.specs.Examples.{WorkedExamples};

use section_check::laws::own_bounds_suffice;

/// The steps of a walk that keeps the bounds are paid, whatever visits give back.
pub fn steps_are_paid()
    ensures { StepsArePaid }
{}

/// A walk that keeps a fact from entry to entry of a loop visits its nodes at most so often for each
/// entry of the section's loop.
pub fn entries_count()
    ensures { EntriesCount }
{}

/// A walk that keeps bounds and facts costs at most the section's value.
pub fn paid_bound_walks()
    ensures { PaidBoundWalks }
{
    // The law is for the proof.
    own_bounds_suffice();
}

/// Where a section with prices has no value, no exit is reached from node 0.
pub fn no_value_no_end()
    ensures { NoValueNoEnd }
{}

/// Without prices the conditions and the value are those of a section.
pub fn plain_is_paid()
    ensures conditions { PlainIsPaid }
    ensures value { PlainValueIsPaid }
{}

/// A section has one answer.
pub fn paid_answers_are_one()
    ensures { PaidAnswersAreOne }
{}

/// Sections with prices that were worked out by hand.
pub fn worked_examples()
    ensures { WorkedExamples }
{}
