//! The ints that the methods of a program push: constants, and static final ints with constants that no instruction writes (JVM
//! Specification SE 8, 4.7.2 and 6.5).

mod constants;
mod rows;
mod sites;

pub use sites::int_sites;
