//! Laws of the definitions in `specs/`. The functions do nothing; a caller whose proof needs a law calls its function.

ghost use Rattle.code_lines.specs.Examples.{WorkedExamples};
ghost use Rattle.code_lines.specs.Laws.{LinesAreApart, LinesAreOne, LinesAreRead, OneIsPushedBefore, OneStandsBefore};

/// A line is the instruction that is read at a start of the code, with its length and its row.
pub fn lines_are_read()
    ensures { LinesAreRead }
{}

/// At most one line begins at a place, and none within another.
pub fn lines_follow_one_another()
    ensures one { LinesAreOne }
    ensures apart { LinesAreApart }
{
    opcodes::laws::instructions_end_within();
}

/// At most one line stands directly before a place, so at most one int is pushed there.
pub fn one_stands_before()
    ensures line { OneStandsBefore }
    ensures int { OneIsPushedBefore }
{
    lines_follow_one_another();
}

/// Lines that were worked out by hand.
pub fn worked_examples()
    ensures { WorkedExamples }
{}
