//! Laws of the sections that are found. The functions do nothing; a caller whose proof needs a law calls its function.

ghost use Rattle.bound_finder.specs.ShowLaws.{FoundInText, FoundShows};

/// The section that is found of a method shows its number.
pub fn found_shows()
    ensures { FoundShows }
{
    opcodes::laws::starts_follow_one_another();
    method_flow::laws::rows_are_of_their_kinds();
    method_flow::laws::calls_are_invokes();
    bound_rules::laws::called_fit();
    section_check::laws::renumbered_stays_accepted();
    compact_walks::laws::graphs_are_moved();
    compact_walks::laws::moved_reaches_exit();
}

/// It can be written.
pub fn found_in_text()
    ensures { FoundInText }
{
    section_check::laws::renumbered_stays_accepted();
}
