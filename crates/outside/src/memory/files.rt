//! Files in memory.

// Files in memory.
ghost use Rattle.std.specs.Prelude.{◌≡◌, ◌<◌, ◌≤◌, ◌^◌, ◌↔◌, ℕ, List, [], length, map, IsErr, IfOk, IfSome, slice_get};
ghost use Rattle.outside.specs.Outside.{Counted, HasCause, HasFileLength, OnlyWord, ReadAt};
ghost use Rattle.outside.specs.Memory.{CountsCall, FailsAt, FilesState, bytes_or_empty, entry_bytes, faults_of, told_of, words_of};

use super::failing::FailingCalls;
use super::read_at;
use crate::{Failed, Files, LONGEST_FILE};
use std::marker::Model;

/// Files that have their bytes in memory, one entry a word. The calls of `length` and `read` whose numbers are
/// listed fail; they are counted together from 0. Each call on an entry without bytes fails.
#[derive(Drop)]
pub struct MemFiles {
    entries: Vec<Option<Vec<u8>>>,
    calls: FailingCalls,
}

impl Model for MemFiles {
    ghost Value = { FilesState };

    ghost view = { λ f. record { entries = map entry_bytes f.entries.items; failing = f.calls.failing; calls = f.calls.calls; failed = f.calls.failed } };

    ghost invariant = { λ f. length f.entries.items < 2 ^ 32 };
}

impl MemFiles {
    pub fn new(entries: Vec<Option<Vec<u8>>>, failing: Vec<u64>) -> Self
        requires { length entries.items < 2 ^ 32 }
        ensures entries { result.entries ≡ map entry_bytes entries.items }
        ensures failing { result.failing ≡ failing.items }
        ensures calls { result.calls ≡ 0 }
        ensures failed { result.failed ≡ [] }
    {
        MemFiles {
            entries,
            calls: FailingCalls::new(failing),
        }
    }
}

impl MemFiles {
    /// Counts a call on a word, which fails where its number is listed or the word's entry has no bytes.
    fn start_call(&mut self, word: u32) -> Result<(), Failed>
        requires { word < words_of self.old }
        ensures rest { OnlyWord (words_of self.old) (words_of self.new) (told_of self.old) (told_of self.new)
            (faults_of self.old) (faults_of self.new) word }
        ensures cause { HasCause (faults_of self.old word) (faults_of self.new word) result }
        ensures fails { IsErr result ↔ FailsAt self.old word }
        ensures faults { Counted result (faults_of self.old word) (faults_of self.new word) }
        ensures counted { CountsCall self.old self.new }
    {
        self.calls.count_call(word)?;
        if self.entries[word as usize].is_none() {
            return Err(Failed);
        }
        Ok(())
    }

    /// The bytes of a word's entry, if it has any.
    fn bytes(&self, word: u32) -> &[u8]
        requires { word < words_of self.now }
        ensures { IfSome (told_of self.now word) (λ bytes. result.now ≡ bytes) }
    {
        match &self.entries[word as usize] {
            Some(bytes) => bytes,
            None => &[],
        }
    }
}

impl Files for MemFiles {
    ghost words = { words_of };

    ghost told = { told_of };

    ghost faults = { faults_of };

    fn words(&self) -> u32 {
        self.entries.len() as u32
    }

    fn length(&mut self, word: u32) -> Result<u64, Failed>
        requires { word < words_of self.old }
        ensures told { IfOk result (HasFileLength (told_of self.old word)) }
        ensures rest { OnlyWord (words_of self.old) (words_of self.new) (told_of self.old) (told_of self.new)
            (faults_of self.old) (faults_of self.new) word }
        ensures cause { HasCause (faults_of self.old word) (faults_of self.new word) result }

        // The calls that are listed fail, those on an entry without bytes, and no others.
        ensures fails { IsErr result ↔ FailsAt self.old word }
        ensures faults { Counted result (faults_of self.old word) (faults_of self.new word) }
        ensures counted { CountsCall self.old self.new }
    {
        self.start_call(word)?;
        Ok(self.bytes(word).len() as u64)
    }

    fn read(&mut self, word: u32, place: u64, piece: &mut [u8]) -> Result<usize, Failed>
        requires word { word < words_of self.old }
        requires place { place ≤ LONGEST_FILE }
        ensures bound { IfOk result (λ n. n ≤ length piece.new) }
        ensures told { IfOk result (λ n. ReadAt (told_of self.old word) place n piece.new) }
        ensures rest { OnlyWord (words_of self.old) (words_of self.new) (told_of self.old) (told_of self.new)
            (faults_of self.old) (faults_of self.new) word }
        ensures cause { HasCause (faults_of self.old word) (faults_of self.new word) result }

        // The calls that are listed fail, those on an entry without bytes, and no others.
        ensures fails { IsErr result ↔ FailsAt self.old word }
        ensures faults { Counted result (faults_of self.old word) (faults_of self.new word) }
        ensures counted { CountsCall self.old self.new }
    {
        self.start_call(word)?;
        Ok(read_at(self.bytes(word), place, piece))
    }

    fn faults(&self, word: u32) -> u64 {
        match &self.entries[word as usize] {
            Some(_) => self.calls.faults(word),
            None => u64::MAX,
        }
    }
}

/// Files that have their bytes in memory, one entry a word, and never fail. An entry without bytes is an empty
/// file.
#[derive(Drop)]
pub struct SureFiles {
    entries: Vec<Option<Vec<u8>>>,
}

impl Model for SureFiles {
    ghost Value = { List (List ℕ) };

    ghost view = { λ f. map bytes_or_empty f.entries.items };

    ghost invariant = { λ f. length f.entries.items < 2 ^ 32 };
}

impl SureFiles {
    pub fn new(entries: Vec<Option<Vec<u8>>>) -> Self
        requires { length entries.items < 2 ^ 32 }
        ensures { result ≡ map bytes_or_empty entries.items }
    {
        SureFiles { entries }
    }
}

// The counts stand at 0, so no call fails.
impl Files for SureFiles {
    ghost words = { λ f. length f };

    ghost told = { λ f word. slice_get f word };

    ghost faults = { λ _ _. 0 };

    fn words(&self) -> u32 {
        self.entries.len() as u32
    }

    fn length(&mut self, word: u32) -> Result<u64, Failed> {
        match &self.entries[word as usize] {
            Some(bytes) => Ok(bytes.len() as u64),
            None => Ok(0),
        }
    }

    fn read(&mut self, word: u32, place: u64, piece: &mut [u8]) -> Result<usize, Failed> {
        match &self.entries[word as usize] {
            Some(bytes) => Ok(read_at(bytes, place, piece)),
            None => Ok(0),
        }
    }

    fn faults(&self, _word: u32) -> u64 {
        0
    }
}
