//! The image of a resolved program (`image_words` says what its words are): `lay_out` gives its words and where its parts lie.
#![tactic(auto)]

mod entries;
mod front;
mod layout;
mod limits;
mod methods;
mod outline;
mod selecting;
mod sizes;
mod statics;
mod tables;
mod uses;

pub use image_builder::{Counted, LayFault, Layout};
pub use layout::lay_out;
pub use limits::coded_methods;
