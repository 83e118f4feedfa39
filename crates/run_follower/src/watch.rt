//! The activations among the boundaries of a run that is followed: what each method's cost, and how the slots of a cyclic executive kept
//! their lengths.
//!
//! `specs/Watched` says what an activation is, by search over the list of boundaries, and what is told of activations. The followers hold
//! the activations that haven't ended in a table with a place for each number of frames, whose memory is taken at the start; so a call of
//! `at` takes none. `laws` says that what they come to is what the definitions say.

mod activation;
pub mod laws;
mod open;
mod profile;
mod slots;

pub use activation::{Activation, Begun};
pub use open::OpenActivations;
pub use profile::{MethodTotals, Profile};
pub use slots::{SlotCounter, Slots};
