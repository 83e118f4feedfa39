//! A circuit clock by clock.

ghost use Rattle.std.specs.Prelude.{◌≡◌, map, IfOk, OnOk, OnErr, length};
ghost use Rattle.netlist.specs.Evaluation.{ports_of, all_after, words_with};
ghost use Rattle.netlist.specs.Meaning.{clocked, first_ram, put_out, started, word_on, words_of};
ghost use Rattle.netlist.specs.WellFormed.{Fit, IsNetlist, IsStateOf};
ghost use Rattle.std.specs.List.{zip};

use crate::parts::{BlockRam, Netlist, OutputPort, Register};
use crate::ram::{PortWords, Ram};
use crate::words::Words;
use base::NoMemory;
use std::alloc::Global;
use std::marker::Model;

/// A circuit at a clock: the words of its registers, and its block RAMs.
#[derive(Drop)]
pub struct Circuit {
    registers: Vec<u64>,
    memories: Vec<Ram>,
}

impl Model for Circuit {
    ghost use Rattle.netlist.specs.Meaning.{Circuit};

    ghost Value = { Circuit };

    ghost view = { λ c. record { registers = c.registers.items; memories = c.memories.items } };
}

/// What registers and block RAMs get at a clock's edge.
#[derive(Drop)]
struct Edge {
    /// The next word of each register.
    registers: Vec<u64>,
    /// The words on the ports of each block RAM.
    ports: Vec<PortWords>,
}

/// The words of registers at the start.
fn first_registers(alloc: Global, registers: &[Register]) -> Result<Vec<u64>, NoMemory>
    ensures { IfOk result (λ words. words.items ≡ map (λ r. r.first) registers.now) }
{
    let mut words = Vec::new(alloc);
    for r in registers {
        words.push(r.first)?;
    }
    Ok(words)
}

/// Block RAMs at the start, with these words in their output registers.
fn first_memories(
    alloc: Global,
    memories: &[BlockRam],
    unknown: &[u64],
) -> Result<Vec<Ram>, NoMemory>
    requires { length unknown.now ≡ length memories.now }
    ensures { IfOk result (λ rams. rams.items ≡ map first_ram (zip memories.now unknown.now)) }
{
    let mut rams = Vec::new(alloc);
    for k in 0..memories.len() {
        rams.push(Ram::new(alloc, &memories[k], unknown[k])?)?;
    }
    Ok(rams)
}

/// The next words of registers.
fn next_registers(alloc: Global, ws: &Words, registers: &[Register]) -> Result<Vec<u64>, NoMemory>
    ensures { IfOk result (λ next. next.items ≡ map (λ r. word_on ws.now r.next) registers.now) }
{
    let mut next = Vec::new(alloc);
    for r in registers {
        next.push(ws.word_on(&r.next))?;
    }
    Ok(next)
}

/// The words on the ports of block RAMs.
fn all_ports(alloc: Global, ws: &Words, memories: &[BlockRam]) -> Result<Vec<PortWords>, NoMemory>
    ensures { IfOk result (λ ports. ports.items ≡ map (ports_of ws.now) memories.now) }
{
    let mut ports = Vec::new(alloc);
    for m in memories {
        ports.push(ws.ports_of(m))?;
    }
    Ok(ports)
}

/// The words on outputs.
fn output_words(alloc: Global, ws: &Words, outputs: &[OutputPort]) -> Result<Vec<u64>, NoMemory>
    ensures { IfOk result (λ words. words.items ≡ map (λ port. word_on ws.now port.net) outputs.now) }
{
    let mut words = Vec::new(alloc);
    for port in outputs {
        words.push(ws.word_on(&port.net))?;
    }
    Ok(words)
}

/// Block RAMs pass a clock's edge.
fn pass_edges(memories: &mut [Ram], ports: &[PortWords], unknown: &[u64])
    requires ports { length ports.now ≡ length memories.old }
    requires unknown { length unknown.now ≡ length memories.old }
    ensures { memories.new ≡ all_after ports.now unknown.now memories.old }
{
    for k in 0..memories.len() {
        memories[k].pass_edge(&ports[k], unknown[k]);
    }
}

/// The words of the wires, each worked out once.
fn wires_of(alloc: Global, n: &Netlist, inputs: &[u64], c: &Circuit) -> Result<Vec<u64>, NoMemory>
    requires netlist { IsNetlist n.now }
    requires inputs { Fit (map (λ port. port.width) n.now.inputs) inputs.now }
    requires state { IsStateOf n.now c.now }
    ensures { IfOk result (λ wires. words_with inputs.now c.now wires.items ≡ words_of n.now inputs.now c.now) }
{
    let mut wires = Vec::new(alloc);
    for e in n.wires.as_slice() {
        let word = c.words(inputs, &wires).result_of(e);
        wires.push(word)?;
    }
    Ok(wires)
}

/// What registers and block RAMs get at a clock's edge.
fn edge_of(alloc: Global, n: &Netlist, inputs: &[u64], c: &Circuit) -> Result<Edge, NoMemory>
    requires netlist { IsNetlist n.now }
    requires inputs { Fit (map (λ port. port.width) n.now.inputs) inputs.now }
    requires state { IsStateOf n.now c.now }
    ensures registers { IfOk result (λ e. e.registers.items
        ≡ map (λ r. word_on (words_of n.now inputs.now c.now) r.next) n.now.registers) }
    ensures ports { IfOk result (λ e. e.ports.items ≡ map (ports_of (words_of n.now inputs.now c.now)) n.now.memories) }
{
    let wires = wires_of(alloc, n, inputs, c)?;
    let ws = c.words(inputs, &wires);
    let registers = next_registers(alloc, &ws, n.registers.as_slice())?;
    let ports = all_ports(alloc, &ws, n.memories.as_slice())?;
    Ok(Edge { registers, ports })
}

impl Circuit {
    /// The circuit of a netlist at the start, with these words in the output registers of its block RAMs.
    pub fn new(alloc: Global, n: &Netlist, unknown: &[u64]) -> Result<Circuit, NoMemory>
        requires netlist { IsNetlist n.now }
        requires unknown { Fit (map (λ m. m.write.word.width) n.now.memories) unknown.now }
        ensures started { IfOk result (λ c. c ≡ started n.now unknown.now) }
        ensures state { IfOk result (λ c. IsStateOf n.now c) }
    {
        let registers = first_registers(alloc, n.registers.as_slice())?;
        let memories = first_memories(alloc, n.memories.as_slice(), unknown)?;
        Ok(Circuit {
            registers,
            memories,
        })
    }

    /// The words at a clock, where the wires so far have these.
    fn words<'a>(&'a self, inputs: &'a [u64], wires: &'a [u64]) -> Words<'a>
        ensures { result ≡ words_with inputs.now self.now wires.now }
    {
        Words {
            inputs,
            registers: &self.registers,
            memories: &self.memories,
            wires,
        }
    }

    /// What the circuit puts out before a clock's edge.
    pub fn put_out(&self, alloc: Global, n: &Netlist, inputs: &[u64]) -> Result<Vec<u64>, NoMemory>
        requires netlist { IsNetlist n.now }
        requires inputs { Fit (map (λ port. port.width) n.now.inputs) inputs.now }
        requires state { IsStateOf n.now self.now }
        ensures { IfOk result (λ out. out.items ≡ put_out n.now inputs.now self.now) }
    {
        let wires = wires_of(alloc, n, inputs, self)?;
        output_words(alloc, &self.words(inputs, &wires), n.outputs.as_slice())
    }

    /// Passes a clock: `inputs` has the word of each input, `unknown` what each block RAM gives where its place doesn't tell.
    pub fn clock(
        &mut self,
        alloc: Global,
        n: &Netlist,
        inputs: &[u64],
        unknown: &[u64],
    ) -> Result<(), NoMemory>
        requires netlist { IsNetlist n.now }
        requires inputs { Fit (map (λ port. port.width) n.now.inputs) inputs.now }
        requires unknown { Fit (map (λ m. m.write.word.width) n.now.memories) unknown.now }
        requires state { IsStateOf n.now self.old }
        ensures clocked { OnOk result (self.new ≡ clocked n.now (record { inputs = inputs.now; unknown = unknown.now }) self.old) }
        ensures state { IsStateOf n.now self.new }
        ensures kept { OnErr result (self.new ≡ self.old) }
    {
        let edge = edge_of(alloc, n, inputs, self)?;
        self.registers = edge.registers;
        pass_edges(&mut self.memories, &edge.ports, unknown);
        Ok(())
    }
}
