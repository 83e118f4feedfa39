//! Files that are named by words.

// Files that are named by the words of a command line.
ghost use Rattle.std.specs.Prelude.{◌≡◌, ◌<◌, ◌≤◌, ℕ, List, length, IfOk, IfErr, IsErrOf};
ghost use Rattle.std.specs.declared.option.Option.{Option};
ghost use Rattle.outside.specs.Outside.{HasCause, HasFileLength, IsWhole, OnlyWord, ReadAt, Rose};
ghost use Rattle.outside.specs.ReadAll.{IsTooBig};

use crate::Failed;
use std::alloc::{AllocError, Global};

/// The length in bytes of the longest file that is read, and the last place at which a file is read.
pub const LONGEST_FILE: u64 = 16_777_216;

/// Files that are named by words. File k is the one that word k names.
pub trait Files {
    /// The number of words.
    ghost words: { Self → ℕ };

    /// The bytes of each word's file, where they are told.
    ghost told: { Self → ℕ → Option (List ℕ) };

    /// How many calls failed on each word.
    ghost faults: { Self → ℕ → ℕ };

    /// The number of words.
    fn words(&self) -> u32
        ensures { result ≡ words self.now };

    /// The length in bytes of a word's file.
    fn length(&mut self, word: u32) -> Result<u64, Failed>
        requires { word < words self.old }
        ensures told { IfOk result (HasFileLength (told self.old word)) }
        ensures rest { OnlyWord (words self.old) (words self.new) (told self.old) (told self.new)
            (faults self.old) (faults self.new) word }
        ensures cause { HasCause (faults self.old word) (faults self.new word) result };

    /// Fills a front of the piece with the bytes of a word's file from a place on, and gives how many they
    /// are. 0 for a piece that isn't empty is the end of the file.
    fn read(&mut self, word: u32, place: u64, piece: &mut [u8]) -> Result<usize, Failed>
        requires word { word < words self.old }
        requires place { place ≤ LONGEST_FILE }
        ensures bound { IfOk result (λ n. n ≤ length piece.new) }
        ensures told { IfOk result (λ n. ReadAt (told self.old word) place n piece.new) }
        ensures rest { OnlyWord (words self.old) (words self.new) (told self.old) (told self.new)
            (faults self.old) (faults self.new) word }
        ensures cause { HasCause (faults self.old word) (faults self.new word) result };

    /// How many calls failed on a word. At `u64::MAX` the count stands still, and counts as risen.
    fn faults(&self, word: u32) -> u64
        requires { word < words self.now }
        ensures { result ≡ faults self.now word };
}

/// Why a whole file wasn't read.
#[derive(Clone, Copy)]
pub enum ReadAll {
    /// The file's length in bytes is past the limit.
    TooBig(u64),
    /// A call on the file failed.
    ReadFault,
    /// There was no memory for its bytes.
    NoMemory,
}

impl From<Failed> for ReadAll {
    ghost use Rattle.std.specs.Prelude.{◌≡◌};
    ghost use Rattle.outside.specs.declared.files.ReadAll.TheVariants.{ReadFault};

    ghost from_gives = { λ _ e. e ≡ ReadFault };

    fn from(_: Failed) -> Self {
        ReadAll::ReadFault
    }
}

impl From<AllocError> for ReadAll {
    ghost use Rattle.std.specs.Prelude.{◌≡◌};
    ghost use Rattle.outside.specs.declared.files.ReadAll.TheVariants.{NoMemory};

    ghost from_gives = { λ _ e. e ≡ NoMemory };

    fn from(_: AllocError) -> Self {
        ReadAll::NoMemory
    }
}

/// Reads a word's whole file of at most `limit` bytes: takes its length, then reads until that many bytes or
/// the end. Memory is taken for bytes that were read, and for no length that was only told.
pub fn read_all<F: Files>(
    alloc: Global,
    files: &mut F,
    word: u32,
    limit: u64,
) -> Result<Vec<u8>, ReadAll>
    requires word { word < F.words files.old }
    requires limit { limit ≤ LONGEST_FILE }
    ensures whole { IfOk result (λ bytes. IsWhole (F.told files.old word) bytes.items) }
    ensures within { IfOk result (λ bytes. length bytes.items ≤ limit) }
    // With `whole` and `within`: a told file that is longer than the limit is never read.
    ensures too_big { IfErr result (IsTooBig (F.told files.old word) limit) }
    ensures fault { IsErrOf result ReadAll.ReadFault
        → Rose (F.faults files.old word) (F.faults files.new word) }
    ensures later { F.faults files.old word ≤ F.faults files.new word }
    ensures rest { OnlyWord (F.words files.old) (F.words files.new) (F.told files.old) (F.told files.new)
        (F.faults files.old) (F.faults files.new) word }
{
    let length = files.length(word)?;
    if length > limit {
        return Err(ReadAll::TooBig(length));
    }
    let mut bytes = Vec::new(alloc);
    let mut piece = [0u8; 4096];
    while (bytes.len() as u64) < length {
        let wanted = (length - bytes.len() as u64).min(4096) as usize;
        let count = files.read(word, bytes.len() as u64, &mut piece[..wanted])?;
        if count == 0 {
            break;
        }
        bytes.extend_from_slice(&piece[..count])?;
    }
    Ok(bytes)
}
