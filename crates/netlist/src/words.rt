//! The words of nets at a clock, and what expressions make of them.

ghost use Rattle.std.specs.Prelude.{◌≡◌, slice_index};
ghost use Rattle.netlist.specs.Evaluation.{FitsWord, ports_of};
ghost use Rattle.netlist.specs.Meaning.{result_of, word_on};

use crate::arithmetic::{computed, inverse, join, part};
use crate::net::{Driver, Expression, Net};
use crate::parts::BlockRam;
use crate::ram::{PortWords, Ram};
use std::marker::Model;

/// The word of each input, each register, each block RAM's output register, and each wire so far.
#[derive(Drop)]
pub struct Words<'a> {
    /// The words of the inputs.
    pub inputs: &'a [u64],
    /// The words of the registers.
    pub registers: &'a [u64],
    /// The block RAMs.
    pub memories: &'a [Ram],
    /// The words of the wires.
    pub wires: &'a [u64],
}

impl<'a> Model for Words<'a> {
    ghost use Rattle.std.specs.Prelude.{map};
    ghost use Rattle.netlist.specs.Meaning.{RamState, Words};

    ghost Value = { Words };

    ghost view = { λ ws. record {
      inputs = ws.inputs.now;
      registers = ws.registers.now;
      read_outs = map (λ (m : RamState). m.read_out) ws.memories.now;
      wires = ws.wires.now;
    } };
}

/// The word at this place, and 0 where there is none.
fn at(words: &[u64], place: usize) -> u64
    ensures { result ≡ slice_index words.now place }
{
    words.get(place).copied().unwrap_or(0)
}

impl<'a> Words<'a> {
    /// The word in the output register of block RAM k.
    fn read_out(&self, k: usize) -> u64
        ensures { result ≡ slice_index self.now.read_outs k }
    {
        if k < self.memories.len() {
            self.memories[k].read_out()
        } else {
            0
        }
    }

    /// The word on a net.
    pub fn word_on(&self, net: &Net) -> u64
        ensures { result ≡ word_on self.now net.now }
    {
        match net.driver {
            Driver::Constant(word) => word,
            Driver::Input(k) => at(self.inputs, k),
            Driver::Register(k) => at(self.registers, k),
            Driver::ReadOut(k) => self.read_out(k),
            Driver::Wire(k) => at(self.wires, k),
        }
    }

    /// What an expression makes of the words on its nets.
    pub fn result_of(&self, e: &Expression) -> u64
        requires { FitsWord self.now e.now }
        ensures { result ≡ result_of self.now e.now }
    {
        match e {
            Expression::Not(x) => inverse(self.word_on(x), x.width),
            Expression::Binary(operator, x, y) => {
                computed(*operator, x.width, self.word_on(x), self.word_on(y))
            }
            Expression::Part(x, low, width) => part(self.word_on(x), *low, *width),
            Expression::Join(x, y) => join(self.word_on(x), self.word_on(y), y.width),
            Expression::Choose(c, x, y) => {
                if self.word_on(c) == 1 {
                    self.word_on(x)
                } else {
                    self.word_on(y)
                }
            }
            Expression::Table(x, _, rows) => at(rows.as_slice(), self.word_on(x) as usize),
        }
    }

    /// The words on the ports of a block RAM.
    pub fn ports_of(&self, m: &BlockRam) -> PortWords
        ensures { result ≡ ports_of self.now m.now }
    {
        PortWords {
            writes: self.word_on(&m.write.when),
            place: self.word_on(&m.write.place),
            word: self.word_on(&m.write.word),
            reads: self.word_on(&m.read.when),
            read_place: self.word_on(&m.read.place),
        }
    }
}
