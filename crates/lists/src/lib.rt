//! Words of lists and of partial results, for definitions: they stand in `specs/Lists` and `specs/Numbers`. What follows of
//! them, over any type of item, stands in `specs/Lemmas` (partial results, and the first item that passes a test),
//! `specs/FirstLemmas` (the first item of lists that are made of parts), `specs/Members` (what a list contains, and lists that
//! rise) and `specs/Tests` (tests joined by "and" and "or").
#![tactic(auto)]
