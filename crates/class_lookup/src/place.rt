//! The place of a member: its class and its index there.

use std::marker::Model;

/// A field or a method: the number of its class, and its index in that class's list of fields or of methods. Contracts see it
/// as that pair.
#[derive(Clone, Copy, PartialEq, Eq)]
pub struct Place {
    pub class: u32,
    pub index: usize,
}

impl Model for Place {
    ghost use Rattle.std.specs.Prelude.{ℕ};

    ghost Value = { ℕ × ℕ };

    ghost view = { λ p. (p.class, p.index) };

    ghost inverse = { λ p. record { class = p.0; index = p.1 } };
}
