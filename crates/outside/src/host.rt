//! Adapters over the real files and streams. Each error counts as a fault. They tell what the writer, the reader
//! and the system below them tell; std's own tell nothing.

mod files;
mod stream;
mod system;

pub use files::HostFiles;
pub use stream::{DirectWrite, HostSink, HostSource, SteadyRead};
pub use system::FileSystem;
