//! Runs a circuit on the words of rows.

ghost use Rattle.netlist.specs.WellFormed.{IsNetlist, IsStateOf};

use base::Items;
use netlist::{Circuit, Netlist, are_input_words, are_ram_words};
use std::alloc::Global;
use test_rows::RowFault;

/// The clocks of a run.
#[derive(Drop)]
pub struct Course {
    start: Option<Items<u64>>,
    clocks: Vec<Items<u64>>,
}

/// The items of a slice.
fn items(alloc: Global, words: &[u64]) -> Result<Items<u64>, RowFault> {
    Ok(Items::new(Vec::from_slice(alloc, words)?))
}

impl Course {
    /// No run.
    pub fn new(alloc: Global) -> Self {
        Course {
            start: None,
            clocks: Vec::new(alloc),
        }
    }

    /// The words in the output registers of block RAMs at the start, where there is to be a run.
    pub fn start(&self) -> Option<&[u64]> {
        match &self.start {
            Some(words) => Some(words.as_slice()),
            None => None,
        }
    }

    /// The words from outside at each clock.
    pub fn clocks(&self) -> &[Items<u64>] {
        &self.clocks
    }

    /// Says that there is to be a run, with these words at its start.
    pub fn begin(&mut self, alloc: Global, words: &[u64]) -> Result<(), RowFault> {
        self.start = Some(items(alloc, words)?);
        Ok(())
    }

    /// Adds a clock.
    pub fn add(&mut self, alloc: Global, words: &[u64]) -> Result<(), RowFault> {
        Ok(self.clocks.push(items(alloc, words)?)?)
    }
}

/// Puts a line of words.
fn show_words(rt: &HostRuntime, words: &[u64]) -> Result<(), RowFault> {
    for word in words {
        print!(rt; "{word} ")?;
    }
    Ok(println!(rt;)?)
}

/// Puts what the circuit puts out before a clock's edge, which it then passes.
fn step(rt: &HostRuntime, n: &Netlist, circuit: &mut Circuit, words: &[u64]) -> Result<(), RowFault>
    requires netlist { IsNetlist n.now }
    requires state { IsStateOf n.now circuit.old }
    ensures { IsStateOf n.now circuit.new }
{
    let count = n.inputs.as_slice().len();
    if words.len() < count {
        return Err(RowFault::Malformed);
    }
    let (inputs, unknown) = words.split_at(count);
    if !are_input_words(n, inputs) || !are_ram_words(n, unknown) {
        return Err(RowFault::Malformed);
    }
    let out = circuit.put_out(rt.alloc(), n, inputs)?;
    circuit.clock(rt.alloc(), n, inputs, unknown)?;
    show_words(rt, &out)
}

/// Runs a circuit clock by clock.
pub fn run(
    rt: &HostRuntime,
    n: &Netlist,
    start: &[u64],
    clocks: &[Items<u64>],
) -> Result<(), RowFault>
    requires { IsNetlist n.now }
{
    if !are_ram_words(n, start) {
        return Err(RowFault::Malformed);
    }
    let mut circuit = Circuit::new(rt.alloc(), n, start)?;
    for words in clocks {
        step(rt, n, &mut circuit, words.as_slice())?;
    }
    Ok(())
}
