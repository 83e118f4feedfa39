//! What follows of answers. The functions do nothing; a caller whose proof needs a law calls its function.
ghost use Rattle.answer_laws.specs.Answers.{AnswersAreOne, BoundLinesAreOne};

/// A method has one answer.
pub fn answers_are_one()
    ensures { AnswersAreOne }
{
    bound_laws::laws::numbers_exist();
    bound_laws::laws::calls_end_without_recursion();
    compact_walks::laws::graphs_are_moved();
    compact_walks::laws::ends_are_one();
    bound_rules::laws::graphs_are_one();
    bound_rules::laws::numbers_are_one();
    bound_rules::laws::methods_have_code();
    method_runs::typed_graphs::laws::typed_methods_reach_starts();
}

/// The lines of all methods are one text.
pub fn bound_lines_are_one()
    ensures { BoundLinesAreOne }
{
    answers_are_one();
}
