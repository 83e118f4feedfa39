//! What stands outside of the machine: its input, its output, and whoever looks on.
#![tactic(auto)]

mod device;
mod fault;
mod seen;
mod watch;

pub use device::Devices;
pub use fault::DeviceFault;
pub use seen::Seen;
pub use watch::{MemWatch, NoWatch, Watch};
