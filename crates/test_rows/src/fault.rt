//! Why a row isn't done.

use base::NoMemory;
use std::alloc::{AllocError, AllocFailed};
use std::io;
use std::num::ParseIntError;

/// Why a row isn't done.
#[derive(Drop)]
pub enum RowFault {
    /// It is no row of the table.
    Malformed,
    /// There is no memory.
    NoMemory,
    /// The output failed.
    Output(io::Error),
}

impl From<AllocError> for RowFault {
    fn from(_: AllocError) -> Self {
        RowFault::NoMemory
    }
}

impl<T: Drop> From<AllocFailed<T>> for RowFault {
    fn from(_: AllocFailed<T>) -> Self {
        RowFault::NoMemory
    }
}

impl From<NoMemory> for RowFault {
    fn from(_: NoMemory) -> Self {
        RowFault::NoMemory
    }
}

impl From<ParseIntError> for RowFault {
    fn from(_: ParseIntError) -> Self {
        RowFault::Malformed
    }
}

impl From<io::Error> for RowFault {
    fn from(fault: io::Error) -> Self {
        RowFault::Output(fault)
    }
}

impl RowFault {
    /// Prints that a row is none, and goes on behind it; else ends with the fault.
    pub fn told(self, rt: &HostRuntime) -> io::Result<()> {
        match self {
            RowFault::Malformed => println!(rt; "a line that is no row"),
            RowFault::NoMemory => Err(io::Error::from(AllocError)),
            RowFault::Output(fault) => Err(fault),
        }
    }
}
