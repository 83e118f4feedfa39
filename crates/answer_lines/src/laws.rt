//! Lines that were worked out by hand. The functions do nothing.
ghost use Rattle.answer_lines.specs.PlanRows.{PlanLineRows};
ghost use Rattle.answer_lines.specs.WorkRows.{WorkLineRows};

/// Lines of few bytes.
pub fn rows_of_lines()
    ensures { WorkLineRows }
{}

/// Lines of plans, and of runs, of cyclic executives.
pub fn rows_of_plans()
    ensures { PlanLineRows }
{}
