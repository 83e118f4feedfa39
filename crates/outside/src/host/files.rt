//! Files of the system, by the words of a command line.

// The files that the words of a command line name.
ghost use Rattle.std.specs.Prelude.{◌≡◌, ◌≢◌, ◌<◌, ◌≤◌, ◌+◌, ◌-◌, ◌^◌, ℕ, min, List, length, map, slice_get, slice_index, string_bytes, vec_len, IfOk, All};
ghost use Rattle.outside.specs.Outside.{Counted, HasCause, HasFileLength, OnlyWord, ReadAt, Rose};
ghost use Rattle.outside.specs.Memory.{entry_told};
ghost use Rattle.outside.specs.Host.{NamedState, told_at};

use super::system::{FileSystem, length_of, read_at};
use crate::{Failed, Files, LONGEST_FILE, NoMemory};
use std::alloc::Global;
use std::marker::Model;

/// The files that the words of a command line name, each with a count of its faults. Only a regular file has a
/// length: a folder, a pipe or a device counts as a fault.
#[derive(Drop)]
pub struct HostFiles<S: FileSystem + Drop> {
    system: S,
    words: Vec<String>,
    faults: Vec<u64>,
}

impl<S: FileSystem + Drop> Model for HostFiles<S> {
    ghost Value = { NamedState };

    ghost view = { λ f. record {
      names = map string_bytes f.words.items;
      told = map
          (λ w. S.told f.system (string_bytes w)) f.words.items;
      faults = f.faults.items;
    } };

    ghost invariant = { λ f. (length f.words.items ≡ length f.faults.items) × (length f.faults.items < 2 ^ 32) };
}

impl<S: FileSystem + Drop> HostFiles<S> {
    /// Keeps the words and makes a count for each.
    pub fn new(alloc: Global, system: S, words: &[&str]) -> Result<Self, NoMemory>
        requires { length words.now < 2 ^ 32 }
        ensures names { IfOk result (λ f. f.names ≡ map (λ w. w.now) words.now) }
        ensures told { IfOk result (λ f. f.told ≡ map (λ w. S.told system w.now) words.now) }
        ensures words { IfOk result (λ f. length f.faults ≡ length words.now) }
        ensures counts { IfOk result (λ f. All (λ count. count ≡ 0) f.faults) }
    {
        let mut names = Vec::new(alloc);
        for word in words {
            names.push(String::from_str(alloc, word)?)?;
        }
        let faults = vec![in alloc; 0; words.len()]?;
        Ok(HostFiles {
            system,
            words: names,
            faults,
        })
    }
}

/// Counts a fault on a word.
fn count_fault(faults: &mut Vec<u64>, word: u32)
    requires { word < vec_len faults.old }
    ensures length { length faults.new.items ≡ length faults.old.items }
    ensures counted { slice_index faults.new.items word ≡ min (slice_index faults.old.items word + 1) (2 ^ 64 - 1) }
    ensures rose { Rose (slice_index faults.old.items word) (slice_index faults.new.items word) }
    ensures later { slice_index faults.old.items word ≤ slice_index faults.new.items word }
    ensures others { (k : ℕ) → k ≢ word → slice_index faults.new.items k ≡ slice_index faults.old.items k }
{
    let count = &mut faults[word as usize];
    *count = count.saturating_add(1);
}

impl<S: FileSystem + Drop> Files for HostFiles<S> {
    ghost words = { λ f. length f.faults };

    ghost told = { λ f word. told_at f.told word };

    ghost faults = { λ f word. slice_index f.faults word };

    fn words(&self) -> u32 {
        self.faults.len() as u32
    }

    fn length(&mut self, word: u32) -> Result<u64, Failed>
        requires { word < length self.old.faults }
        ensures told { IfOk result (HasFileLength (told_at self.old.told word)) }
        ensures rest { OnlyWord (length self.old.faults) (length self.new.faults) (told_at self.old.told)
            (told_at self.new.told) (slice_index self.old.faults) (slice_index self.new.faults) word }
        ensures cause { HasCause (slice_index self.old.faults word) (slice_index self.new.faults word) result }
        ensures counted { Counted result (slice_index self.old.faults word) (slice_index self.new.faults word) }
        ensures names { self.new.names ≡ self.old.names }
    {
        match length_of(&self.system, self.words[word as usize].as_str()) {
            Ok(length) => Ok(length),
            Err(_) => {
                count_fault(&mut self.faults, word);
                Err(Failed)
            }
        }
    }

    fn read(&mut self, word: u32, place: u64, piece: &mut [u8]) -> Result<usize, Failed>
        requires word { word < length self.old.faults }
        requires place { place ≤ LONGEST_FILE }
        ensures bound { IfOk result (λ n. n ≤ length piece.new) }
        ensures told { IfOk result (λ n. ReadAt (told_at self.old.told word) place n piece.new) }
        ensures rest { OnlyWord (length self.old.faults) (length self.new.faults) (told_at self.old.told)
            (told_at self.new.told) (slice_index self.old.faults) (slice_index self.new.faults) word }
        ensures cause { HasCause (slice_index self.old.faults word) (slice_index self.new.faults word) result }
        ensures counted { Counted result (slice_index self.old.faults word) (slice_index self.new.faults word) }
        ensures names { self.new.names ≡ self.old.names }
    {
        let name = self.words[word as usize].as_str();
        match read_at(&self.system, name, place, piece) {
            Ok(count) => Ok(count),
            Err(_) => {
                count_fault(&mut self.faults, word);
                Err(Failed)
            }
        }
    }

    fn faults(&self, word: u32) -> u64 {
        self.faults[word as usize]
    }
}
