//! Laws of the words of an image (`image_words`): the slots of method tables have what is selected, and the words say the
//! program that the classes are. The statements stand in `specs/`. The functions here do nothing; a caller whose proof needs
//! a law calls its function.
#![tactic(auto)]

pub mod laws;
