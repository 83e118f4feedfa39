//! The operators: each makes a wire, whose word is said in plain numbers.

ghost use Rattle.std.specs.Prelude.{◌≡◌, ◌+◌, ◌-◌, ◌*◌, ◌/◌, ◌%◌, ◌^◌, ◌<◌, ◌≤◌, ◌==◌, if◌then◌else◌};
ghost use Rattle.std.specs.Prelude.{bit_and, bit_or, bit_xor, nat_lt, slice_index, List};
ghost use Rattle.netlist.specs.declared.net.BinaryOperator.TheVariants.{And, Or, Xor, Add, Sub, Mul, Equal, Less, Left, Right};
ghost use Rattle.netlist.specs.declared.net.Expression.TheVariants.{Not, Binary, Part, Join, Choose, Table};
ghost use Rattle.netlist.specs.Meaning.{bit_of, computed, word_on};
ghost use Rattle.circuit_build.specs.Parts.{constant_net};
ghost use Rattle.circuit_build.specs.Wiring.{Adds, Gives};

use crate::logic::Logic;
use crate::nets::constant;
use base::Items;
use netlist::{BinaryOperator, Expression, Net};

impl Logic {
    /// A further wire of two operands, of so many bits.
    fn binary(&mut self, width: u32, operator: BinaryOperator, x: Net, y: Net) -> Net
        ensures width { result.width ≡ width }
        ensures adds { Adds self.old self.new result (Binary operator x y) }
        ensures gives { Gives self.old self.new (λ ws. word_on ws result ≡ computed operator x.width (word_on ws x) (word_on ws y)) }
    {
        self.wire(width, Expression::Binary(operator, x, y))
    }

    /// Each bit the other way.
    pub fn not(&mut self, x: Net) -> Net
        ensures width { result.width ≡ x.width }
        ensures adds { Adds self.old self.new result (Not x) }
        ensures gives { Gives self.old self.new (λ ws. word_on ws result ≡ 2 ^ x.width - 1 - word_on ws x) }
    {
        self.wire(x.width, Expression::Not(x))
    }

    /// Both, bit by bit.
    pub fn and(&mut self, x: Net, y: Net) -> Net
        ensures width { result.width ≡ x.width }
        ensures adds { Adds self.old self.new result (Binary And x y) }
        ensures gives { Gives self.old self.new (λ ws. word_on ws result ≡ bit_and (word_on ws x) (word_on ws y)) }
    {
        self.binary(x.width, BinaryOperator::And, x, y)
    }

    /// Either, bit by bit.
    pub fn or(&mut self, x: Net, y: Net) -> Net
        ensures width { result.width ≡ x.width }
        ensures adds { Adds self.old self.new result (Binary Or x y) }
        ensures gives { Gives self.old self.new (λ ws. word_on ws result ≡ bit_or (word_on ws x) (word_on ws y)) }
    {
        self.binary(x.width, BinaryOperator::Or, x, y)
    }

    /// One of the two, bit by bit.
    pub fn xor(&mut self, x: Net, y: Net) -> Net
        ensures width { result.width ≡ x.width }
        ensures adds { Adds self.old self.new result (Binary Xor x y) }
        ensures gives { Gives self.old self.new (λ ws. word_on ws result ≡ bit_xor (word_on ws x) (word_on ws y)) }
    {
        self.binary(x.width, BinaryOperator::Xor, x, y)
    }

    /// The sum's low bits.
    pub fn add(&mut self, x: Net, y: Net) -> Net
        ensures width { result.width ≡ x.width }
        ensures adds { Adds self.old self.new result (Binary Add x y) }
        ensures gives { Gives self.old self.new (λ ws. word_on ws result ≡ (word_on ws x + word_on ws y) % 2 ^ x.width) }
    {
        self.binary(x.width, BinaryOperator::Add, x, y)
    }

    /// The difference's low bits.
    pub fn sub(&mut self, x: Net, y: Net) -> Net
        ensures width { result.width ≡ x.width }
        ensures adds { Adds self.old self.new result (Binary Sub x y) }
        ensures gives { Gives self.old self.new (λ ws. word_on ws result ≡ (word_on ws x + (2 ^ x.width - word_on ws y)) % 2 ^ x.width) }
    {
        self.binary(x.width, BinaryOperator::Sub, x, y)
    }

    /// The product's low bits.
    pub fn mul(&mut self, x: Net, y: Net) -> Net
        ensures width { result.width ≡ x.width }
        ensures adds { Adds self.old self.new result (Binary Mul x y) }
        ensures gives { Gives self.old self.new (λ ws. word_on ws result ≡ (word_on ws x * word_on ws y) % 2 ^ x.width) }
    {
        self.binary(x.width, BinaryOperator::Mul, x, y)
    }

    /// x moved up by y, with zeros from below.
    pub fn left(&mut self, x: Net, y: Net) -> Net
        ensures width { result.width ≡ x.width }
        ensures adds { Adds self.old self.new result (Binary Left x y) }
        ensures gives { Gives self.old self.new (λ ws. word_on ws result ≡ (word_on ws x * 2 ^ word_on ws y) % 2 ^ x.width) }
    {
        self.binary(x.width, BinaryOperator::Left, x, y)
    }

    /// x moved down by y, with zeros from above.
    pub fn right(&mut self, x: Net, y: Net) -> Net
        ensures width { result.width ≡ x.width }
        ensures adds { Adds self.old self.new result (Binary Right x y) }
        ensures gives { Gives self.old self.new (λ ws. word_on ws result ≡ word_on ws x / 2 ^ word_on ws y) }
    {
        self.binary(x.width, BinaryOperator::Right, x, y)
    }

    /// Whether they are equal.
    pub fn equal(&mut self, x: Net, y: Net) -> Net
        ensures width { result.width ≡ 1 }
        ensures adds { Adds self.old self.new result (Binary Equal x y) }
        ensures gives { Gives self.old self.new (λ ws. word_on ws result ≡ bit_of (word_on ws x == word_on ws y)) }
    {
        self.binary(1, BinaryOperator::Equal, x, y)
    }

    /// Whether x is less than y, without signs.
    pub fn less(&mut self, x: Net, y: Net) -> Net
        ensures width { result.width ≡ 1 }
        ensures adds { Adds self.old self.new result (Binary Less x y) }
        ensures gives { Gives self.old self.new (λ ws. word_on ws result ≡ bit_of (nat_lt (word_on ws x) (word_on ws y))) }
    {
        self.binary(1, BinaryOperator::Less, x, y)
    }

    /// Whether x is this word.
    pub fn is(&mut self, x: Net, word: u64) -> Net
        ensures width { result.width ≡ 1 }
        ensures adds { Adds self.old self.new result (Binary Equal x (constant_net x.width word)) }
        ensures gives { Gives self.old self.new (λ ws. word_on ws result ≡ bit_of (word_on ws x == word)) }
    {
        self.equal(x, constant(x.width, word))
    }

    /// The low bits of x and a word more.
    pub fn plus(&mut self, x: Net, word: u64) -> Net
        ensures width { result.width ≡ x.width }
        ensures adds { Adds self.old self.new result (Binary Add x (constant_net x.width word)) }
        ensures gives { Gives self.old self.new (λ ws. word_on ws result ≡ (word_on ws x + word) % 2 ^ x.width) }
    {
        self.add(x, constant(x.width, word))
    }

    /// The low bits of x less a word.
    pub fn minus(&mut self, x: Net, word: u64) -> Net
        ensures width { result.width ≡ x.width }
        ensures adds { Adds self.old self.new result (Binary Sub x (constant_net x.width word)) }
        ensures gives { Gives self.old self.new (λ ws. word_on ws result ≡ (word_on ws x + (2 ^ x.width - word)) % 2 ^ x.width) }
    {
        self.sub(x, constant(x.width, word))
    }

    /// So many bits of x, from bit `low` on.
    pub fn part(&mut self, x: Net, low: u32, width: u32) -> Net
        ensures width { result.width ≡ width }
        ensures adds { Adds self.old self.new result (Part x low width) }
        ensures gives { Gives self.old self.new (λ ws. word_on ws result ≡ word_on ws x / 2 ^ low % 2 ^ width) }
    {
        self.wire(width, Expression::Part(x, low, width))
    }

    /// The bits of `high` above those of `low`.
    pub fn join(&mut self, high: Net, low: Net) -> Net
        ensures width { high.width + low.width ≤ 64 → result.width ≡ high.width + low.width }
        ensures adds { Adds self.old self.new result (Join high low) }
        ensures gives { Gives self.old self.new (λ ws. word_on ws result ≡ word_on ws high * 2 ^ low.width + word_on ws low) }
    {
        let width = high.width.saturating_add(low.width);
        self.wire(width, Expression::Join(high, low))
    }

    /// x where the bit is 1, else y.
    pub fn choose(&mut self, bit: Net, x: Net, y: Net) -> Net
        ensures width { result.width ≡ x.width }
        ensures adds { Adds self.old self.new result (Choose bit x y) }
        ensures gives { Gives self.old self.new (λ ws. word_on ws result ≡ (if word_on ws bit == 1 then word_on ws x else word_on ws y)) }
    {
        self.wire(x.width, Expression::Choose(bit, x, y))
    }

    /// The row at x, of so many bits.
    pub fn table(&mut self, x: Net, width: u32, rows: Vec<u64>) -> Net
        ensures width { result.width ≡ width }
        ensures adds { Adds self.old self.new result (Table x width rows.items) }
        ensures gives { Gives self.old self.new (λ ws. word_on ws result ≡ slice_index rows.items (word_on ws x)) }
    {
        self.wire(width, Expression::Table(x, width, Items::new(rows)))
    }
}
