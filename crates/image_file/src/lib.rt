//! Files of images. A bare image is one method of ints, without classes; a linked image holds a program's words and its class files.
//! Their grammars stand in `specs/Bare.antt` and `specs/Linked.antt`.
#![tactic(auto)]

mod bare;
mod linked;

pub use bare::{Bare, BareFault, read_bare};
pub use linked::{LinkedFault, LinkedImage, one_image, read_linked, write_linked};
