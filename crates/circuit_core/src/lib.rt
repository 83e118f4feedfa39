//! The data path of the circuit: what becomes of the registers of the machine in a clock, wire by wire.
//!
//! Each function says what its net's word is, of the words of its operands, by the definition of the same name in
//! `specs/`.
#![tactic(auto)]

mod arithmetic;
mod combined;
mod cycle;
mod decoding;
mod operands;
mod places;
mod pushed;
mod registers;
mod running;
mod shape;
mod stored;
mod word;

pub use arithmetic::signed_less;
pub use cycle::Cycle;
pub use operands::{next_a, next_ar, next_b, next_sp, next_vp};
pub use places::place_of;
pub use registers::{Ahead, Machine, Method, Port, ReadOuts, Registers};
pub use shape::Shape;
pub use stored::{write_place, writes, written};
pub use word::Word;
