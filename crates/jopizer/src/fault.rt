//! Why bytes aren't the file of an image that was linked.

use crate::refusal::LinkRefusal;

/// Why bytes aren't the file of an image that was linked.
#[derive(Clone, Copy)]
pub enum ImageFault {
    /// They are the file of no image.
    Bad,
    /// This refuses the class files in it.
    Link(LinkRefusal),
    /// The word at this place is the first that the image has otherwise than its class files are linked to: the image's and the
    /// linked one, none past an end.
    Differs(u32, Option<u32>, Option<u32>),
    /// There was no memory.
    NoMemory,
}
