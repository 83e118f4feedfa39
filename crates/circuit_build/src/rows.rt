//! Lists that are made beside logic: rows of tables, first words, and nets.

ghost use Rattle.std.specs.Prelude.{◌≡◌, ℕ, ◌<◌, [], ◌∷◌, ◌++◌, length, false, slice_index};
ghost use Rattle.circuit_build.specs.Wiring.{Gives};

use crate::logic::Logic;

impl Logic {
    /// An empty list.
    pub fn list<T>(&self) -> Vec<T>
        ensures { result.items ≡ [] }
    {
        Vec::new(self.alloc)
    }

    /// Adds an item to a list. No wire comes of it.
    pub fn push<T: Drop>(&mut self, list: &mut Vec<T>, item: T)
        ensures wires { self.new.lacks ≡ false → self.new ≡ self.old }
        ensures gives { Gives self.old self.new (λ _. list.new.items ≡ list.old.items ++ item ∷ []) }
    {
        self.lacks |= list.push(item).is_err();
    }

    /// So many rows of a table, each of its place. No wire comes of it.
    pub fn rows<F: Fn(u64) -> u64>(&mut self, count: u64, row: F) -> Vec<u64>
        requires { F.IsAlwaysCallable row }
        ensures wires { self.new.lacks ≡ false → self.new ≡ self.old }
        ensures gives { Gives self.old self.new (λ _. (length result.items ≡ count) × ((k : ℕ) → k < count → F.post row k (slice_index result.items k))) }
    {
        let mut rows = self.list();
        for k in 0..count {
            self.push(&mut rows, row(k));
        }
        rows
    }
}
