//! Files of words one after another, read in their order, with a limit on the sum of their lengths.
ghost use Rattle.std.specs.Prelude.{◌≡◌, ◌+◌, ◌<◌, ◌≤◌, length, IfOk, IfErr};
ghost use Rattle.outside.specs.Outside.{IsWhole};
ghost use Rattle.outside.specs.Files.{files_told, OnlyWords, most_bytes, AreFiles, IsFilesCause, contents, FileCause};

use crate::{Files, LONGEST_FILE, ReadAll, read_all};
use std::alloc::Global;

/// Why the files of a command weren't read.
#[derive(Clone, Copy)]
pub enum FilesFault {
    /// The lengths in bytes of the files up to that of this word have this sum, which is past the limit.
    TooBig(u32, u128),
    /// A call on the file of this word failed.
    ReadFault(u32),
    /// There was no memory for their bytes.
    NoMemory,
}

/// Reads the files of the words from `first` up to `end`, in their order. Together they have at most 16,777,216 bytes.
pub fn read_files<F: Files>(
    alloc: Global,
    files: &mut F,
    first: u32,
    end: u32,
) -> Result<Vec<Vec<u8>>, FilesFault>
    requires order { first ≤ end }
    requires there { end ≤ F.words files.old }
    ensures files { IfOk result (λ read. AreFiles (F.told files.old) first end (contents read.items)) }
    ensures rest { IfOk result (λ read. OnlyWords (files_told (F.words files.old) (F.told files.old) (F.faults files.old))
        (files_told (F.words files.new) (F.told files.new) (F.faults files.new)) first end) }
    ensures cause { IfErr result (IsFilesCause (files_told (F.words files.old) (F.told files.old) (F.faults files.old))
        (files_told (F.words files.new) (F.told files.new) (F.faults files.new)) first end) }
{
    let mut read = Vec::new(alloc);
    let mut left = LONGEST_FILE;
    for word in first..end {
        let bytes = read_file(alloc, files, word, left)?;
        left -= bytes.len() as u64;
        if let Err(_) = read.push(bytes) {
            return Err(FilesFault::NoMemory);
        }
    }
    Ok(read)
}

/// Reads the file of a word, where so many bytes are left of the most.
fn read_file<F: Files>(
    alloc: Global,
    files: &mut F,
    word: u32,
    left: u64,
) -> Result<Vec<u8>, FilesFault>
    requires there { word < F.words files.old }
    requires left { left ≤ most_bytes }
    ensures whole { IfOk result (λ bytes. IsWhole (F.told files.old word) bytes.items) }
    ensures within { IfOk result (λ bytes. length bytes.items ≤ left) }
    ensures cause { IfErr result (FileCause (files_told (F.words files.old) (F.told files.old) (F.faults files.old))
        (files_told (F.words files.new) (F.told files.new) (F.faults files.new)) word left) }
    ensures rest { OnlyWords (files_told (F.words files.old) (F.told files.old) (F.faults files.old))
        (files_told (F.words files.new) (F.told files.new) (F.faults files.new)) word (word + 1) }
{
    match read_all(alloc, files, word, left) {
        Ok(bytes) => Ok(bytes),
        Err(ReadAll::TooBig(length)) => {
            let sum = u128::from(LONGEST_FILE - left) + u128::from(length);
            Err(FilesFault::TooBig(word, sum))
        }
        Err(ReadAll::ReadFault) => Err(FilesFault::ReadFault(word)),
        Err(ReadAll::NoMemory) => Err(FilesFault::NoMemory),
    }
}
