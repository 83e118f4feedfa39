//! What follows of line tables. Each function does nothing: its contract is the law.
ghost use Rattle.source_places.specs.Tables.Examples.{Examples};
ghost use Rattle.source_places.specs.Tables.Lines.{TablesAreRead, NearestIsNearest};

/// The starts that are read of bytes are those of the table that they are.
pub fn tables_are_read()
    ensures { TablesAreRead }
{}

/// What the nearest start is, by the places of all.
pub fn nearest_is_nearest()
    ensures { NearestIsNearest }
{}

/// Tables and names that are worked out by hand.
pub fn examples()
    ensures { Examples }
{}
