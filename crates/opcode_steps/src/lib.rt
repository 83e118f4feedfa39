//! Steps of the machine over opcodes, a module for each family: values that are moved, numbers that are computed, devices, fields and
//! arrays in the heap, and objects that are made and tested.
#![tactic(auto)]

pub mod devices;
pub mod heap;
pub mod numbers;
pub mod objects;
pub mod values;
