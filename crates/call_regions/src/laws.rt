//! Laws of the definitions in `specs/`. The functions do nothing; a caller whose proof needs a law calls its function.

ghost use Rattle.call_regions.specs.Laws.{OrderExcludesCycles, RunsAreCalls, WordsAreOfTheTable};

/// The calls in the table of a program are the calls of the program.
pub fn runs_are_calls()
    ensures { RunsAreCalls }
{
    method_flow::laws::rows_are_of_their_kinds();
}

/// What `words` tells of a method of the table is what the method's code takes in the program.
pub fn words_are_of_the_table()
    ensures { WordsAreOfTheTable }
{}

/// Where all methods that may run can be put behind their targets, no cycle of them may run. So there is an order exactly
/// where there is no recursion.
pub fn order_excludes_cycles()
    ensures { OrderExcludesCycles }
{}
