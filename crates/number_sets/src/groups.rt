//! Guesses ranks of numbers: the same for those that are above one another, and lower ones for those above that aren't. What is
//! proved with such ranks doesn't depend on the guess; only the time does.

use base::{Items, NoMemory};
use std::alloc::Global;

/// A search in depth through all numbers, from each on to those directly above it.
#[derive(Drop)]
struct Search {
    /// As the how manieth each number was seen; 0 for one that wasn't.
    seen: Vec<u32>,
    count: u32,
    /// The rank of each number; 0 for one that has none yet.
    ranks: Vec<u32>,
    rank: u32,
    /// The numbers that were seen and have no rank, in the order in which they were seen.
    open: Vec<u32>,
    /// Of these, the first of each group of numbers that are above one another, as far as is known.
    firsts: Vec<u32>,
    /// The way to the number at which the search is, with how many were tried of those directly above each.
    way: Vec<(u32, usize)>,
}

/// What an entry of a table is; 0 past its end.
fn entry_of(table: &[u32], number: u32) -> u32 {
    table.get(number as usize).copied().unwrap_or(0)
}

/// One of those directly above a number.
fn upper_at(above: &[Items<u32>], number: u32, place: usize) -> Option<u32> {
    above.get(number as usize)?.as_slice().get(place).copied()
}

impl Search {
    fn new(alloc: Global, count: usize) -> Result<Self, NoMemory> {
        Ok(Search {
            seen: vec![in alloc; 0; count]?,
            count: 0,
            ranks: vec![in alloc; 0; count]?,
            rank: 0,
            open: Vec::new(alloc),
            firsts: Vec::new(alloc),
            way: Vec::new(alloc),
        })
    }

    /// Goes on to a number that wasn't seen.
    fn enter(&mut self, number: u32) -> Result<(), NoMemory> {
        let index = number as usize;
        if index < self.seen.len() {
            self.count = self.count.saturating_add(1);
            self.seen[index] = self.count;
            self.open.push(number)?;
            self.firsts.push(number)?;
            self.way.push((number, 0))?;
        }
        Ok(())
    }

    /// All numbers that were seen behind this one are of its group.
    fn join(&mut self, number: u32) {
        let seen = entry_of(&self.seen, number);
        for _ in 0..self.firsts.len() {
            match self.firsts.last() {
                Some(first) if entry_of(&self.seen, *first) > seen => {
                    self.firsts.pop();
                }
                _ => break,
            }
        }
    }

    /// Gives the group that begins with this number its rank.
    fn close(&mut self, number: u32) {
        self.rank = self.rank.saturating_add(1);
        self.firsts.pop();
        for _ in 0..self.open.len() {
            match self.open.pop() {
                Some(member) => {
                    let index = member as usize;
                    if index < self.ranks.len() {
                        self.ranks[index] = self.rank;
                    }
                    if member == number {
                        break;
                    }
                }
                None => break,
            }
        }
    }

    /// One step, unless the search is at its end.
    fn step(&mut self, above: &[Items<u32>]) -> Result<bool, NoMemory> {
        match self.way.pop() {
            Some((number, place)) => {
                match upper_at(above, number, place) {
                    Some(upper) => {
                        self.way.push((number, place.saturating_add(1)))?;
                        if entry_of(&self.seen, upper) == 0 {
                            self.enter(upper)?;
                        } else if entry_of(&self.ranks, upper) == 0 {
                            self.join(upper);
                        }
                    }
                    None => {
                        if self.firsts.last().copied() == Some(number) {
                            self.close(number);
                        }
                    }
                }
                Ok(true)
            }
            None => Ok(false),
        }
    }

    /// All steps from a number that wasn't seen.
    fn go_from(&mut self, above: &[Items<u32>], number: u32) -> Result<(), NoMemory> {
        self.enter(number)?;
        for _ in 0..u64::MAX {
            if !self.step(above)? {
                break;
            }
        }
        Ok(())
    }
}

/// Ranks of the numbers below `count`, which have these directly above them, as a guess: numbers that are above one another have
/// the same, those above a number that aren't also below it lower ones. The time is linear in what the lists have.
pub fn ranks_of(alloc: Global, above: &[Items<u32>], count: u32) -> Result<Vec<u32>, NoMemory> {
    let mut search = Search::new(alloc, above.len())?;
    for number in 0..count {
        if entry_of(&search.seen, number) == 0 {
            search.go_from(above, number)?;
        }
    }
    Ok(search.ranks)
}
