//! What is outside of the program, as traits: files that are named by words, a source of bytes and a sink; and the files of a
//! command's operands.
//!
//! Each object may tell what it holds, and counts its faults. Objects in memory tell; the adapters over
//! files and streams tell what the writer, the reader and the system below them tell.
#![tactic(auto)]

mod files;
mod host;
pub mod laws;
mod memory;
mod operands;
mod sink;
mod source;

pub use base::NoMemory;
pub use files::{Files, LONGEST_FILE, ReadAll, read_all};
pub use host::{DirectWrite, FileSystem, HostFiles, HostSink, HostSource, SteadyRead};
pub use memory::{MemFiles, MemSink, MemSource, SureFiles, SureSink, SureSource};
pub use operands::{FilesFault, read_files};
pub use sink::{Sink, put_all};
pub use source::Source;

/// A call on the outside failed, and its count of faults rose.
#[derive(Clone, Copy)]
pub struct Failed;
