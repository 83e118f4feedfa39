//! The parts of a circuit in the making: inputs, registers, block RAMs and outputs.

ghost use Rattle.std.specs.Prelude.{◌≡◌, [], ◌∷◌, ◌++◌, length, false};
ghost use Rattle.circuit_build.specs.Parts.{idle_ram, input_net, next_set, ports_set, read_out_net, register_net, with_next, with_ports};

use crate::nets::{constant, never};
use base::Items;
use netlist::{BlockRam, Driver, InputPort, Net, OutputPort, ReadPort, Register, WritePort};
use std::alloc::Global;
use std::marker::Model;

/// Parts in the making. They are numbered as they come.
#[derive(Drop)]
pub struct Parts {
    alloc: Global,
    pub(crate) inputs: Vec<InputPort>,
    pub(crate) registers: Vec<Register>,
    pub(crate) memories: Vec<BlockRam>,
    pub(crate) outputs: Vec<OutputPort>,
    // Whether there was no memory for a part.
    pub(crate) lacks: bool,
}

impl Model for Parts {
    ghost use Rattle.circuit_build.specs.Parts.{PartLists};

    ghost Value = { PartLists };

    ghost view = { λ p. record {
      inputs = p.inputs.items;
      registers = p.registers.items;
      memories = p.memories.items;
      outputs = p.outputs.items;
      lacks = p.lacks;
    } };
}

impl Parts {
    /// No parts.
    pub fn new(alloc: Global) -> Self
        ensures { result ≡ record { inputs = []; registers = []; memories = []; outputs = []; lacks = false } }
    {
        Parts {
            alloc,
            inputs: Vec::new(alloc),
            registers: Vec::new(alloc),
            memories: Vec::new(alloc),
            outputs: Vec::new(alloc),
            lacks: false,
        }
    }

    /// A name of these bytes, or another one where memory lacks.
    fn name(&mut self, text: &[u8]) -> Items<u8>
        ensures { self.new.lacks ≡ false → (self.new ≡ self.old) × (result ≡ text.now) }
    {
        let mut name = Vec::new(self.alloc);
        self.lacks |= name.extend_from_slice(text).is_err();
        Items::new(name)
    }

    /// A further input, of so many bits.
    pub fn input(&mut self, name: &[u8], width: u32) -> Net
        ensures net { result ≡ input_net width (length self.old.inputs) }
        ensures adds { self.new.lacks ≡ false
            → self.new ≡ record self.old { inputs = self.old.inputs ++ record { name = name.now; width = width } ∷ [] } }
    {
        let driver = Driver::Input(self.inputs.len());
        let name = self.name(name);
        self.lacks |= self.inputs.push(InputPort { name, width }).is_err();
        Net { width, driver }
    }

    /// A further output.
    pub fn output(&mut self, name: &[u8], net: Net)
        ensures { self.new.lacks ≡ false
            → self.new ≡ record self.old { outputs = self.old.outputs ++ record { name = name.now; net = net } ∷ [] } }
    {
        let name = self.name(name);
        self.lacks |= self.outputs.push(OutputPort { name, net }).is_err();
    }

    /// A further register, of so many bits and with this word at the start. It keeps its word until `set_next` says more.
    pub fn register(&mut self, width: u32, first: u64) -> Net
        ensures net { result ≡ register_net width (length self.old.registers) }
        ensures adds { self.new.lacks ≡ false
            → self.new ≡ record self.old { registers = self.old.registers ++ record { first = first; next = result } ∷ [] } }
    {
        let driver = Driver::Register(self.registers.len());
        let next = Net { width, driver };
        self.lacks |= self.registers.push(Register { first, next }).is_err();
        next
    }

    /// Says what the next word of a register is.
    pub fn set_next(&mut self, register: Net, next: Net)
        ensures { self.new ≡ next_set self.old register.driver next }
    {
        if let Driver::Register(k) = register.driver {
            set_next(&mut self.registers, k, next);
        }
    }

    /// A further block RAM of so many words, each of so many bits, with these at the start: the net of its output register.
    /// It neither writes nor reads until `set_ports` says more.
    pub fn memory(&mut self, words: usize, width: u32, first: Vec<u64>) -> Net
        ensures net { result ≡ read_out_net width (length self.old.memories) }
        ensures adds { self.new.lacks ≡ false
            → self.new ≡ record self.old {
              memories = self.old.memories ++ idle_ram words width first.items ∷ [];
            } }
    {
        let driver = Driver::ReadOut(self.memories.len());
        let memory = BlockRam {
            words,
            first: Items::new(first),
            write: WritePort {
                when: never(),
                place: never(),
                word: constant(width, 0),
            },
            read: ReadPort {
                when: never(),
                place: never(),
            },
        };
        self.lacks |= self.memories.push(memory).is_err();
        Net { width, driver }
    }

    /// Says what a block RAM writes and reads.
    pub fn set_ports(&mut self, memory: Net, write: WritePort, read: ReadPort)
        ensures { self.new ≡ ports_set self.old memory.driver write read }
    {
        if let Driver::ReadOut(k) = memory.driver {
            set_ports(&mut self.memories, k, write, read);
        }
    }
}

/// Says what the next word of the register with this number is.
fn set_next(registers: &mut [Register], k: usize, next: Net)
    ensures { registers.new ≡ with_next registers.old k next }
{
    if k < registers.len() {
        registers[k].next = next;
    }
}

/// Says what the block RAM with this number writes and reads.
fn set_ports(memories: &mut [BlockRam], k: usize, write: WritePort, read: ReadPort)
    ensures { memories.new ≡ with_ports memories.old k write read }
{
    if k < memories.len() {
        memories[k].write = write;
        memories[k].read = read;
    }
}
