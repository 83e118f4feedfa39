//! The rows of a netlist.

use base::Items;
use netlist::{
    BinaryOperator, BlockRam, Driver, Expression, InputPort, Net, Netlist, OutputPort, ReadPort,
    Register, WritePort,
};
use std::alloc::{AllocError, Global};
use test_rows::RowFault;

/// The parts of a netlist so far.
#[derive(Drop)]
pub struct Draft {
    inputs: Vec<InputPort>,
    wires: Vec<Expression>,
    registers: Vec<Register>,
    memories: Vec<BlockRam>,
    outputs: Vec<OutputPort>,
}

/// The name of port number `k`: a text and letters.
fn name(alloc: Global, text: &[u8], k: usize) -> Result<Items<u8>, AllocError> {
    let mut name = Vec::new(alloc);
    name.extend_from_slice(text)?;
    let mut left = k;
    for _ in 0..13 {
        name.push(b'a' + (left % 26) as u8)?;
        left /= 26;
        if left == 0 {
            break;
        }
    }
    Ok(Items::new(name))
}

/// The items of a row behind its first ones.
fn items(alloc: Global, row: &[u64]) -> Result<Items<u64>, AllocError> {
    let mut items = Vec::new(alloc);
    items.extend_from_slice(row)?;
    Ok(Items::new(items))
}

/// A number of 32 bits.
fn short(number: u64) -> Result<u32, RowFault> {
    u32::try_from(number).map_err(|_| RowFault::Malformed)
}

/// The net of three numbers.
fn net(width: u64, kind: u64, number: u64) -> Result<Net, RowFault> {
    let driver = match kind {
        0 => Driver::Constant(number),
        1 => Driver::Input(number as usize),
        2 => Driver::Register(number as usize),
        3 => Driver::ReadOut(number as usize),
        4 => Driver::Wire(number as usize),
        _ => return Err(RowFault::Malformed),
    };
    Ok(Net {
        width: short(width)?,
        driver,
    })
}

/// The operator of a number.
fn operator(number: u64) -> Result<BinaryOperator, RowFault> {
    match number {
        0 => Ok(BinaryOperator::And),
        1 => Ok(BinaryOperator::Or),
        2 => Ok(BinaryOperator::Xor),
        3 => Ok(BinaryOperator::Add),
        4 => Ok(BinaryOperator::Sub),
        5 => Ok(BinaryOperator::Mul),
        6 => Ok(BinaryOperator::Equal),
        7 => Ok(BinaryOperator::Less),
        8 => Ok(BinaryOperator::Left),
        9 => Ok(BinaryOperator::Right),
        _ => Err(RowFault::Malformed),
    }
}

/// The expression of a row.
fn expression(alloc: Global, row: &[u64]) -> Result<Expression, RowFault> {
    match row {
        [4, w, d, k] => Ok(Expression::Not(net(*w, *d, *k)?)),
        [5, o, w, d, k, v, e, l] => Ok(Expression::Binary(
            operator(*o)?,
            net(*w, *d, *k)?,
            net(*v, *e, *l)?,
        )),
        [6, low, width, w, d, k] => Ok(Expression::Part(
            net(*w, *d, *k)?,
            short(*low)?,
            short(*width)?,
        )),
        [7, w, d, k, v, e, l] => Ok(Expression::Join(net(*w, *d, *k)?, net(*v, *e, *l)?)),
        [8, rest @ ..] => choice(rest),
        [9, width, w, d, k, rows @ ..] => {
            let place = net(*w, *d, *k)?;
            Ok(Expression::Table(place, short(*width)?, items(alloc, rows)?))
        }
        _ => Err(RowFault::Malformed),
    }
}

/// The choice of nine numbers.
fn choice(row: &[u64]) -> Result<Expression, RowFault> {
    let [w, d, k, v, e, l, u, f, m] = row else {
        return Err(RowFault::Malformed);
    };
    Ok(Expression::Choose(net(*w, *d, *k)?, net(*v, *e, *l)?, net(*u, *f, *m)?))
}

/// What nine numbers say that a block RAM writes.
fn write_port(row: &[u64]) -> Result<WritePort, RowFault> {
    let [w, d, k, v, e, l, u, f, m] = row else {
        return Err(RowFault::Malformed);
    };
    Ok(WritePort {
        when: net(*w, *d, *k)?,
        place: net(*v, *e, *l)?,
        word: net(*u, *f, *m)?,
    })
}

/// What six numbers say that a block RAM reads.
fn read_port(row: &[u64]) -> Result<ReadPort, RowFault> {
    let [w, d, k, v, e, l] = row else {
        return Err(RowFault::Malformed);
    };
    Ok(ReadPort {
        when: net(*w, *d, *k)?,
        place: net(*v, *e, *l)?,
    })
}

/// The block RAM of so many words that a row's other numbers say.
fn block_ram(alloc: Global, words: u64, row: &[u64]) -> Result<BlockRam, RowFault> {
    if row.len() < 15 {
        return Err(RowFault::Malformed);
    }
    let write = write_port(&row[..9])?;
    let read = read_port(&row[9..15])?;
    Ok(BlockRam {
        words: words as usize,
        first: items(alloc, &row[15..])?,
        write,
        read,
    })
}

impl Draft {
    /// A netlist without parts.
    pub fn new(alloc: Global) -> Self {
        Draft {
            inputs: Vec::new(alloc),
            wires: Vec::new(alloc),
            registers: Vec::new(alloc),
            memories: Vec::new(alloc),
            outputs: Vec::new(alloc),
        }
    }

    /// Adds the part that a row says.
    pub fn add(&mut self, alloc: Global, row: &[u64]) -> Result<(), RowFault> {
        match row {
            [0, width] => self.add_input(alloc, *width),
            [1, first, w, d, k] => {
                let next = net(*w, *d, *k)?;
                Ok(
                    self.registers.push(Register {
                        first: *first,
                        next,
                    })?,
                )
            }
            [2, words, rest @ ..] => Ok(self.memories.push(block_ram(alloc, *words, rest)?)?),
            [3, w, d, k] => self.add_output(alloc, net(*w, *d, *k)?),
            _ => Ok(self.wires.push(expression(alloc, row)?)?),
        }
    }

    /// Adds an input.
    fn add_input(&mut self, alloc: Global, width: u64) -> Result<(), RowFault> {
        let name = name(alloc, b"in_", self.inputs.len())?;
        let width = short(width)?;
        Ok(self.inputs.push(InputPort { name, width })?)
    }

    /// Adds an output.
    fn add_output(&mut self, alloc: Global, net: Net) -> Result<(), RowFault> {
        let name = name(alloc, b"out_", self.outputs.len())?;
        Ok(self.outputs.push(OutputPort { name, net })?)
    }

    /// The netlist of these parts.
    pub fn into_netlist(self, alloc: Global) -> Result<Netlist, AllocError> {
        Ok(Netlist {
            name: name(alloc, b"rows_", 0)?,
            inputs: Items::new(self.inputs),
            wires: Items::new(self.wires),
            registers: Items::new(self.registers),
            memories: Items::new(self.memories),
            outputs: Items::new(self.outputs),
        })
    }
}
