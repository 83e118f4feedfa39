//! Which ints, and arrays of which lengths, lines push, as far as that is found already.

ghost use Rattle.std.specs.Prelude.{◌≡◌};
ghost use Rattle.loop_rules.specs.Further.Found.{known_at};

use std::marker::Model;

/// An int that lines push, and the place of the first of them, in bytes of code.
#[derive(Clone, Copy)]
pub struct KnownInt {
    pub from: u32,
    pub value: i32,
}

/// By the place behind them, the ints that lines push, and the lengths of the arrays that they push.
#[derive(Drop)]
pub struct KnownTable {
    pub ints: Vec<Option<KnownInt>>,
    pub lengths: Vec<Option<KnownInt>>,
}

impl Model for KnownTable {
    ghost use Rattle.loop_rules.specs.Further.Found.{Table};

    ghost Value = { Table };

    ghost view = { λ t. record { ints = t.ints.items; lengths = t.lengths.items } };
}

/// What is found of the lines that end at a place.
pub fn known_at(found: &[Option<KnownInt>], place: u32) -> Option<KnownInt>
    ensures { result ≡ known_at found.now place }
{
    let index = place as usize;
    if index < found.len() {
        found[index]
    } else {
        None
    }
}
