//! The devices of a run: an input, an output and a watch that are lent, and the lines of a trace: of a boundary from which a step is
//! begun, of a byte that the program writes, and of a cycle. Their texts stand in `specs/Lines.antt`. A [`TraceDevice`] puts those of
//! a run. No memory is taken.
#![tactic(auto)]

mod device;
mod devices;
mod lines;
mod no_sink;
mod no_source;
mod pieces;

pub use device::TraceDevice;
pub use devices::RunDevice;
pub use lines::{AtBoundary, put_boundary, put_cycle, put_write};
pub use no_sink::NoSink;
pub use no_source::NoSource;
