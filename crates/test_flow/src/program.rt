//! The program of a row's class files.

use bytecode_verifier::{Verified, VerifyFault, verify};
use program_resolution::{ProgramRefusal, resolve};
use std::alloc::Global;
use test_rows::{RowFault, hex_bytes};

/// The program that these files are, of which the class of this name has the `main` that is run.
pub fn verified(alloc: Global, main: &str, digits: &[&str]) -> Result<Verified, RowFault> {
    let mut files = Vec::new(alloc);
    for file in digits {
        files.push(hex_bytes(alloc, file.as_bytes())?)?;
    }
    if files.len() >= 1 << 32 {
        return Err(RowFault::Malformed);
    }
    let program = match resolve(alloc, &files, main.as_bytes()) {
        Ok(program) => program,
        Err(ProgramRefusal::NoMemory) => return Err(RowFault::NoMemory),
        Err(_) => return Err(RowFault::Malformed),
    };
    match verify(alloc, program) {
        Ok(program) => Ok(program),
        Err(VerifyFault::At(_, _, _, program)) => {
            drop(program);
            Err(RowFault::Malformed)
        }
        Err(VerifyFault::NoMemory(program)) => {
            drop(program);
            Err(RowFault::NoMemory)
        }
    }
}
