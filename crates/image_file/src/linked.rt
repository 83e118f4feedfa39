//! The files of linked images: what such a file holds, and how it is read and written. Their grammar stands in
//! `specs/Linked.antt`.

mod image;
mod laws;
mod reading;
#[cfg(test)]
mod tests;
mod writing;

pub use base::FormatFault as LinkedFault;
pub use image::LinkedImage;
pub use laws::one_image;
pub use reading::read_linked;
pub use writing::write_linked;

/// The mark of linked images and the version of their files.
const MARK: &[u8] = b"JOPI\0\x01";
