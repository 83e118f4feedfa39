//! Rows of bits by pairs of numbers.

mod rows;

pub use rows::{BitRows, Row};
