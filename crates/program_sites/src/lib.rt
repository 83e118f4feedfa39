//! Which instructions of a resolved program make objects, and of how many words, and which ints its instructions push.
#![tactic(auto)]

pub mod ints;
pub mod made;
