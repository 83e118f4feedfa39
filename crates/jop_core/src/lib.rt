//! The core: a clocked microcode machine with a stack cache (JOP Reference Handbook).
//!
//! One call of [`Machine::cycle`] is one clock. The machine's outside is a [`Devices`].
#![tactic(auto)]

mod code;
mod halt;
/// Laws of the machine's cycles. Each is a function without a body, whose contract says it.
pub mod laws;
mod machine;
pub mod places;
mod steps;
mod tick;

pub use device_traits::{DeviceFault, Devices, MemWatch, NoWatch, Seen, Watch};
pub use halt::Halt;
pub use image_file::{Bare, BareFault, read_bare};
pub use machine::{Machine, can_start, can_start_bare};
pub use machine_memory::timing::Config;
pub use tick::Tick;
