//! What follows of reports. Each function does nothing: its contract is the law.
ghost use Rattle.report_lines.specs.Laws.{LinesAddUp, ReportTextsAreOne};

/// The lines of a report have together the cycles of all rows.
pub fn lines_add_up()
    ensures { LinesAddUp }
{}

/// The text is told by the rows and the totals.
pub fn report_texts_are_one()
    ensures { ReportTextsAreOne }
{}
