//! Loops that count, in activations of methods: each activation that begins where static final ints hold their constants keeps the
//! bounds of such loops, so that a bound of a method asks for the other loops alone. Definitions and laws alone: they stand in
//! `specs/`.

pub mod laws;
