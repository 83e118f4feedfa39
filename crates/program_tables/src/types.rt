//! Types by number.
ghost use Rattle.std.specs.Prelude.{◌≡◌, ◌<◌, length, map, Some, IfOk, slice_get};
ghost use Rattle.bytecode_model.specs.Lists.{index_of};
ghost use Rattle.bytecode_model.specs.Types.{same_kind};
ghost use Rattle.program_tables.specs.Tables.{kind_seen};

use crate::kinds::ObjectKind;
use base::NoMemory;
use indexmap::IndexSet;
use std::marker::Model;

/// The types by number: the arrays of numbers, the classes, and the arrays of references. Contracts see them as the list of
/// what their objects are.
#[derive(Drop)]
pub struct Types {
    kinds: IndexSet<ObjectKind>,
}

impl Model for Types {
    ghost use Rattle.std.specs.Prelude.{List, ◌<◌, ◌^◌, length};
    ghost use Rattle.program_tables.specs.declared.kinds.ObjectKind.{ObjectKind};

    ghost Value = { List ObjectKind };

    ghost view = { λ a. a.kinds.keys };

    ghost invariant = { λ a. length a.kinds.keys < 2 ^ 32 };
}

impl Types {
    /// These types, by number.
    pub(crate) fn new(kinds: IndexSet<ObjectKind>) -> Result<Self, NoMemory>
        ensures { IfOk result (λ made. made ≡ kinds.keys) }
    {
        if kinds.len() > u32::MAX as usize {
            return Err(NoMemory);
        }
        Ok(Types { kinds })
    }

    /// How many there are.
    pub fn count(&self) -> u32
        ensures { result ≡ length self.now }
    {
        self.kinds.len() as u32
    }

    /// What an object of the type of this number is.
    pub fn at(&self, number: u32) -> ObjectKind
        requires { number < length self.now }
        ensures { slice_get self.now number ≡ Some result }
    {
        self.kinds.as_slice()[number as usize]
    }

    /// The number of the type whose objects are of this kind.
    pub fn number(&self, kind: ObjectKind) -> Option<u32>
        ensures { result ≡ index_of (same_kind (kind_seen kind)) (map kind_seen self.now) }
    {
        match self.kinds.get_index_of(&kind) {
            Some(number) => Some(number as u32),
            None => None,
        }
    }
}
