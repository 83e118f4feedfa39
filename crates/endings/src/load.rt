//! The file of an operand.
ghost use Rattle.std.specs.Prelude.{◌<◌, ◌≤◌, length, IfOk, IfErr};
ghost use Rattle.outside.specs.Outside.{IsWhole, OnlyWord};
ghost use Rattle.endings.specs.Phase.{LoadFault};

use crate::outcome::{Ending, Refusal};
use outside::{Files, LONGEST_FILE, ReadAll, read_all};
use std::alloc::Global;

/// The bytes of a word's file.
pub fn load<F: Files>(alloc: Global, files: &mut F, word: u32) -> Result<Vec<u8>, Ending>
    requires { word < F.words files.old }
    ensures whole { IfOk result (λ bytes. IsWhole (F.told files.old word) bytes.items) }
    ensures short { IfOk result (λ bytes. length bytes.items ≤ LONGEST_FILE) }
    ensures fault { IfErr result (LoadFault word (F.told files.old word) (F.faults files.old word) (F.faults files.new word)) }
    ensures later { F.faults files.old word ≤ F.faults files.new word }
    ensures rest { OnlyWord (F.words files.old) (F.words files.new) (F.told files.old) (F.told files.new)
        (F.faults files.old) (F.faults files.new) word }
{
    match read_all(alloc, files, word, LONGEST_FILE) {
        Ok(bytes) => Ok(bytes),
        Err(ReadAll::TooBig(length)) => {
            Err(Ending::Refused(Refusal::TooBig(word, length as u128)))
        }
        Err(ReadAll::ReadFault) => Err(Ending::ReadFault),
        Err(ReadAll::NoMemory) => Err(Ending::NoMemory),
    }
}
