//! Watches of a machine's states.
ghost use Rattle.std.specs.Prelude.{◌≡◌, ◌≤◌, List, [], ◌∷◌, Some, None, IfOk, if◌then◌else◌};
ghost use Rattle.std.specs.declared.option.Option.{Option};
ghost use Rattle.base.specs.Telling.{Grew};
ghost use Rattle.device_traits.specs.declared.seen.Seen.{Seen};

use crate::seen::Seen;
use base::NoMemory;
use std::alloc::Global;

/// Is handed the states of a machine.
pub trait Watch {
    /// The states that it holds, in order, where it tells.
    ghost held: { Self → Option (List Seen) };

    /// Is handed a state.
    fn saw(&mut self, at: Seen)
        ensures { Grew (held self.old) (held self.new) (at ∷ []) };
}

/// A watch that does nothing and tells nothing.
#[derive(Clone, Copy)]
pub struct NoWatch;

impl Watch for NoWatch {
    ghost held = { λ _. None };

    fn saw(&mut self, _at: Seen) {}
}

/// A watch that keeps the states in memory. Where it finds no memory for one, it stops telling.
#[derive(Drop)]
pub struct MemWatch {
    states: Vec<Seen>,
    tells: bool,
}

impl MemWatch {
    ghost use Rattle.device_traits.specs.Watched.{capacity_of, watched};

    /// A watch that holds no state.
    pub fn new(alloc: Global) -> Self
        ensures { watched result ≡ Some [] }
    {
        MemWatch {
            states: Vec::new(alloc),
            tells: true,
        }
    }

    /// A watch that holds no state, with memory for so many: as long as it holds no more, it tells.
    pub fn with_capacity(alloc: Global, capacity: usize) -> Result<Self, NoMemory>
        ensures held { IfOk result (λ w. watched w ≡ Some []) }
        ensures capacity { IfOk result (λ w. capacity_of w ≡ capacity) }
    {
        Ok(MemWatch {
            states: Vec::with_capacity(alloc, capacity)?,
            tells: true,
        })
    }

    /// The states that it was handed, up to the first for which it found no room.
    pub fn held(&self) -> &[Seen]
        ensures { (states : List Seen) → watched self.now ≡ Some states → result.now ≡ states }
    {
        &self.states
    }
}

impl Watch for MemWatch {
    ghost use Rattle.device_traits.specs.Watched.{GoesOnTelling, capacity_of, watched};

    ghost held = { watched };

    fn saw(&mut self, at: Seen)
        ensures held { Grew (watched self.old) (watched self.new) (at ∷ []) }
        ensures tells { GoesOnTelling self.old self.new at }
        ensures capacity { capacity_of self.old ≤ capacity_of self.new }
    {
        if !self.tells {
            return;
        }
        if let Err(_) = self.states.push(at) {
            self.tells = false;
        }
    }
}
