//! Whether a netlist is well formed.
//!
//! Each test is exactly what the definition of its name says, and looks at each part of the netlist once.

ghost use Rattle.std.specs.Prelude.{◌+◌, ◌≡◌, ◌↔◌, ◌<◌, ◌≤◌, ◌^◌, IsTrue, length, map, All, [], slice_index_or, ◌≢◌};
ghost use Rattle.std.specs.List.{AllPairs};
ghost use Rattle.netlist.specs.Names.{IsLast};
ghost use Rattle.netlist.specs.WellFormed.{AreWires, Drives, Fit, IsBit, IsBlockRam, IsExpression, IsName, IsNamed, IsNet, IsNetlist, IsWidth, WidthsAgree};
ghost use Rattle.netlist.specs.WellFormed.{names_in, width_computed, width_of, widths_before, widths_in};

use crate::net::{BinaryOperator, Driver, Expression, Net};
use crate::parts::{BlockRam, Netlist, Register};

/// Whether a net has this width: 1 to 64.
pub fn is_width(width: u32) -> bool
    ensures { IsTrue result ↔ IsWidth width }
{
    1 <= width && width <= 64
}

/// The width of an operator's result, where its first operand has this width.
fn width_computed(operator: BinaryOperator, width: u32) -> u32
    ensures { result ≡ width_computed operator width }
{
    match operator {
        BinaryOperator::Equal | BinaryOperator::Less => 1,
        _ => width,
    }
}

impl Expression {
    /// The width of what the expression gives.
    pub fn width(&self) -> u64
        ensures { result ≡ width_of self.now }
    {
        match self {
            Expression::Not(x) => u64::from(x.width),
            Expression::Binary(operator, x, _) => u64::from(width_computed(*operator, x.width)),
            Expression::Part(_, _, width) => u64::from(*width),
            Expression::Join(x, y) => u64::from(x.width) + u64::from(y.width),
            Expression::Choose(_, x, _) => u64::from(x.width),
            Expression::Table(_, width, _) => u64::from(*width),
        }
    }
}

/// Whether a word has so many bits.
fn fits(word: u64, width: u32) -> bool
    ensures { IsTrue result ↔ (word < 2 ^ width) }
{
    width >= 64 || word >> width == 0
}

/// Whether what drives a net is there and has its width, where so many wires stand before.
fn drives(n: &Netlist, before: usize, driver: Driver, width: u32) -> bool
    requires { before ≤ length n.now.wires }
    ensures { IsTrue result ↔ Drives (widths_before before n.now) driver width }
{
    match driver {
        Driver::Constant(word) => fits(word, width),
        Driver::Input(k) => n
            .inputs
            .as_slice()
            .get(k)
            .is_some_and(|port| port.width == width),
        Driver::Register(k) => n
            .registers
            .as_slice()
            .get(k)
            .is_some_and(|r| r.next.width == width),
        Driver::ReadOut(k) => n
            .memories
            .as_slice()
            .get(k)
            .is_some_and(|m| m.write.word.width == width),
        Driver::Wire(k) => n.wires.as_slice()[..before]
            .get(k)
            .is_some_and(|e| e.width() == u64::from(width)),
    }
}

/// Whether a net is one, where so many wires stand before.
fn is_net(n: &Netlist, before: usize, net: &Net) -> bool
    requires { before ≤ length n.now.wires }
    ensures { IsTrue result ↔ IsNet (widths_before before n.now) net.now }
{
    is_width(net.width) && drives(n, before, net.driver, net.width)
}

/// Whether a net is one of one bit, where so many wires stand before.
fn is_bit(n: &Netlist, before: usize, net: &Net) -> bool
    requires { before ≤ length n.now.wires }
    ensures { IsTrue result ↔ IsBit (widths_before before n.now) net.now }
{
    net.width == 1 && is_net(n, before, net)
}

/// Whether it isn't a constant.
fn is_named(driver: Driver) -> bool
    ensures { IsTrue result ↔ IsNamed driver }
{
    !matches!(driver, Driver::Constant(_))
}

/// Whether an operator has operands of these widths.
fn widths_agree(operator: BinaryOperator, x: u32, y: u32) -> bool
    ensures { IsTrue result ↔ WidthsAgree operator x y }
{
    match operator {
        BinaryOperator::Left | BinaryOperator::Right => y <= 32,
        _ => x == y,
    }
}

/// Whether a part of a net, from a bit on and so many bits, is within it.
fn is_part(x: &Net, low: u32, width: u32) -> bool
    ensures { IsTrue result ↔ (IsNamed x.now.driver × (1 ≤ width) × (low + width ≤ x.now.width)) }
{
    is_named(x.driver) && width >= 1 && u64::from(low) + u64::from(width) <= u64::from(x.width)
}

/// Whether there is a row of so many bits for each word of so many.
fn are_rows(rows: &[u64], bits: u32, width: u32) -> bool
    ensures { IsTrue result ↔ ((bits ≤ 16) × (length rows.now ≡ 2 ^ bits) × All (λ row. row < 2 ^ width) rows.now) }
{
    bits <= 16 && rows.len() == 1 << bits && rows.iter().all(|row| fits(*row, width))
}

/// Whether an expression is one, where so many wires stand before.
fn is_expression(n: &Netlist, before: usize, e: &Expression) -> bool
    requires { before ≤ length n.now.wires }
    ensures { IsTrue result ↔ IsExpression (widths_before before n.now) e.now }
{
    match e {
        Expression::Not(x) => is_net(n, before, x),
        Expression::Binary(operator, x, y) => {
            is_net(n, before, x)
                && is_net(n, before, y)
                && widths_agree(*operator, x.width, y.width)
        }
        Expression::Part(x, low, width) => is_net(n, before, x) && is_part(x, *low, *width),
        Expression::Join(x, y) => is_net(n, before, x)
            && is_net(n, before, y)
            && x.width + y.width <= 64,
        Expression::Choose(c, x, y) => {
            is_bit(n, before, c)
                && is_net(n, before, x)
                && is_net(n, before, y)
                && x.width == y.width
        }
        Expression::Table(x, width, rows) => {
            is_net(n, before, x) && is_width(*width) && are_rows(rows.as_slice(), x.width, *width)
        }
    }
}

/// Whether each wire stands on what is there before it.
fn are_wires(n: &Netlist) -> bool
    ensures { IsTrue result ↔ AreWires (widths_before 0 n.now) n.now.wires }
{
    for k in 0..n.wires.as_slice().len() {
        if !is_expression(n, k, &n.wires.as_slice()[k]) {
            return false;
        }
    }
    true
}

/// Whether a register has a next word and a first one.
fn is_register(n: &Netlist, r: &Register) -> bool
    ensures { IsTrue result ↔ (IsNet (widths_in n.now) r.now.next × (r.now.first < 2 ^ r.now.next.width)) }
{
    is_net(n, n.wires.as_slice().len(), &r.next) && fits(r.first, r.next.width)
}

/// Whether a block RAM's ports are on nets.
fn has_ports(n: &Netlist, m: &BlockRam) -> bool
    ensures { IsTrue result ↔ (IsBit (widths_in n.now) m.now.write.when × IsNet (widths_in n.now) m.now.write.place
        × IsNet (widths_in n.now) m.now.write.word × IsBit (widths_in n.now) m.now.read.when
        × IsNet (widths_in n.now) m.now.read.place) }
{
    let all = n.wires.as_slice().len();
    is_bit(n, all, &m.write.when)
        && is_net(n, all, &m.write.place)
        && is_net(n, all, &m.write.word)
        && is_bit(n, all, &m.read.when)
        && is_net(n, all, &m.read.place)
}

/// Whether a block RAM has so many words as its places tell apart, or fewer.
fn has_size(m: &BlockRam) -> bool
    ensures { IsTrue result ↔ ((m.now.read.place.width ≡ m.now.write.place.width) × (1 ≤ m.now.words)
        × (m.now.words ≤ 2 ^ m.now.write.place.width) × (m.now.words < 2 ^ 31)) }
{
    m.read.place.width == m.write.place.width
        && m.words >= 1
        && fits((m.words - 1) as u64, m.write.place.width)
        && m.words < 0x8000_0000
}

/// Whether a block RAM's first words are words of it.
fn has_first_words(m: &BlockRam) -> bool
    ensures { IsTrue result
        ↔ ((length m.now.first ≤ m.now.words) × All (λ word. word < 2 ^ m.now.write.word.width) m.now.first) }
{
    let first = m.first.as_slice();
    first.len() <= m.words && first.iter().all(|word| fits(*word, m.write.word.width))
}

/// Whether a block RAM is one.
fn is_block_ram(n: &Netlist, m: &BlockRam) -> bool
    ensures { IsTrue result ↔ IsBlockRam (widths_in n.now) m.now }
{
    has_ports(n, m) && has_size(m) && has_first_words(m)
}

/// Whether a name is lower-case letters and underscores.
fn is_name(name: &[u8]) -> bool
    ensures { IsTrue result ↔ IsName name.now }
{
    name.len() >= 1
        && name
            .iter()
            .all(|c| (b'a' <= *c && *c <= b'z') || *c == b'_')
}

/// How many names there are in the module: its clock's and those of its ports.
fn count_names(n: &Netlist) -> usize
    ensures { result ≡ length (names_in n.now) }
{
    1 + n.inputs.as_slice().len() + n.outputs.as_slice().len()
}

/// The name at this place among them.
fn name_at(n: &Netlist, k: usize) -> &[u8]
    requires { k < length (names_in n.now) }
    ensures { result.now ≡ slice_index_or (names_in n.now) k [] }
{
    let inputs = n.inputs.as_slice();
    if k == 0 {
        b"clk"
    } else if k <= inputs.len() {
        inputs[k - 1].name.as_slice()
    } else {
        n.outputs.as_slice()[k - 1 - inputs.len()].name.as_slice()
    }
}

/// Whether no later name is that at this place.
fn is_last(n: &Netlist, k: usize) -> bool
    requires { k < length (names_in n.now) }
    ensures { IsTrue result ↔ IsLast (names_in n.now) k }
{
    let count = count_names(n);
    for later in k + 1..count {
        if name_at(n, k) == name_at(n, later) {
            return false;
        }
    }
    true
}

/// Whether what stands at this place is a name, and no later one is the same.
fn is_only_name(n: &Netlist, k: usize) -> bool
    requires { k < length (names_in n.now) }
    ensures { IsTrue result ↔ (IsName (slice_index_or (names_in n.now) k []) × IsLast (names_in n.now) k) }
{
    is_name(name_at(n, k)) && is_last(n, k)
}

/// Whether the names in the module are names, each of one thing.
fn are_names(n: &Netlist) -> bool
    ensures { IsTrue result ↔ (All IsName (names_in n.now) × AllPairs (λ a b. a ≢ b) (names_in n.now)) }
{
    for k in 0..count_names(n) {
        if !is_only_name(n, k) {
            return false;
        }
    }
    true
}

/// Whether each register has a next word and a first one.
fn are_registers(n: &Netlist) -> bool
    ensures { IsTrue result
        ↔ All (λ r. IsNet (widths_in n.now) r.next × (r.first < 2 ^ r.next.width)) n.now.registers }
{
    n.registers.as_slice().iter().all(|r| is_register(n, r))
}

/// Whether each block RAM is one.
fn are_block_rams(n: &Netlist) -> bool
    ensures { IsTrue result ↔ All (IsBlockRam (widths_in n.now)) n.now.memories }
{
    n.memories.as_slice().iter().all(|m| is_block_ram(n, m))
}

/// Whether each input has a width.
fn are_inputs(n: &Netlist) -> bool
    ensures { IsTrue result ↔ All (λ port. IsWidth port.width) n.now.inputs }
{
    n.inputs.as_slice().iter().all(|port| is_width(port.width))
}

/// Whether each output is on a net.
fn are_outputs(n: &Netlist) -> bool
    ensures { IsTrue result ↔ All (λ port. IsNet (widths_in n.now) port.net) n.now.outputs }
{
    let all = n.wires.as_slice().len();
    n.outputs
        .as_slice()
        .iter()
        .all(|port| is_net(n, all, &port.net))
}

/// Whether a netlist is well formed.
pub fn is_netlist(n: &Netlist) -> bool
    ensures { IsTrue result ↔ IsNetlist n.now }
{
    is_name(n.name.as_slice())
        && are_names(n)
        && are_inputs(n)
        && are_wires(n)
        && are_registers(n)
        && are_block_rams(n)
        && are_outputs(n)
}

// ---- words from outside

/// Whether there is a word for each input, within its width.
pub fn are_input_words(n: &Netlist, words: &[u64]) -> bool
    ensures { IsTrue result ↔ Fit (map (λ port. port.width) n.now.inputs) words.now }
{
    let ports = n.inputs.as_slice();
    if words.len() != ports.len() {
        return false;
    }
    for (k, port) in ports.iter().enumerate() {
        if !fits(words[k], port.width) {
            return false;
        }
    }
    true
}

/// Whether there is a word for each block RAM, within the width of its words.
pub fn are_ram_words(n: &Netlist, words: &[u64]) -> bool
    ensures { IsTrue result ↔ Fit (map (λ m. m.write.word.width) n.now.memories) words.now }
{
    let memories = n.memories.as_slice();
    if words.len() != memories.len() {
        return false;
    }
    for (k, m) in memories.iter().enumerate() {
        if !fits(words[k], m.write.word.width) {
            return false;
        }
    }
    true
}
