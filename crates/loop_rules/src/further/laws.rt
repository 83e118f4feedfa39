//! Laws of the definitions in `specs/`. The functions do nothing; a caller whose proof needs a law calls its function.

ghost use Rattle.loop_rules.specs.Further.Arrays.{PutsKeepArrays};
ghost use Rattle.loop_rules.specs.Further.Examples.{WorkedFurtherExamples};
ghost use Rattle.loop_rules.specs.Further.Laws.{ArraysAreOne, FirstLinesAreReached, LastWritesAreReached, LastWritesExist, LastWritesWrite};
ghost use Rattle.loop_rules.specs.Further.Laws.{LinesBeforeAreReached, PushedAreOne};

/// What may have written a local variable last writes it, and control comes to it and on from there.
pub fn last_writes_are_reached()
    ensures reached { LastWritesAreReached }
    ensures write { LastWritesWrite }
{}

/// Wherever control comes, something may have written a local variable last, or nothing did.
pub fn last_writes_exist()
    ensures { LastWritesExist }
{}

/// Where control comes to a place from the line before it alone, it comes to that line.
pub fn lines_before_are_reached()
    ensures { LinesBeforeAreReached }
{
    code_lines::laws::lines_follow_one_another();
    code_lines::laws::one_stands_before();
}

/// Where control comes to a place from the line before it alone, the lines that end there push one int at most, or one length of
/// arrays, from one place on, to which control comes.
pub fn pushed_are_one()
    ensures ints { PushedAreOne }
    ensures arrays { ArraysAreOne }
    ensures reached { FirstLinesAreReached }
{
    code_lines::laws::lines_follow_one_another();
    code_lines::laws::one_stands_before();
}

/// Ints that were worked out by hand.
pub fn worked_examples()
    ensures { WorkedFurtherExamples }
{
    code_lines::laws::one_stands_before();
}

/// Fields that are known by what instructions put to them are put only such arrays.
pub fn puts_keep_arrays()
    ensures { PutsKeepArrays }
{}
