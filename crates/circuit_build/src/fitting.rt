//! Nets made as wide as is asked for, and words looked for among others.

ghost use Rattle.std.specs.Prelude.{◌≡◌, ◌-◌, ◌%◌, ◌^◌, ◌<◌, ◌≤◌, ◌==◌, false};
ghost use Rattle.std.specs.List.{All, list_any};
ghost use Rattle.netlist.specs.declared.net.Expression.TheVariants.{Join, Part};
ghost use Rattle.netlist.specs.Meaning.{bit_of, word_on};
ghost use Rattle.netlist.specs.WellFormed.{IsNet, Widths};
ghost use Rattle.circuit_build.specs.Laws.{Grows, IsLogic, widths_with};
ghost use Rattle.circuit_build.specs.Parts.{constant_net};
ghost use Rattle.circuit_build.specs.Wiring.{Adds, Gives};

use crate::logic::Logic;
use crate::nets::{constant, never};
use netlist::{Expression, Net};

impl Logic {
    /// x with so many bits: its low ones, or zeros above it.
    pub fn fit(&mut self, x: Net, width: u32) -> Net
        ensures width { result.width ≡ width }
        ensures narrower { width < x.width → Adds self.old self.new result (Part x 0 width) }
        ensures same { width ≡ x.width → (self.new ≡ self.old) × (result ≡ x) }
        ensures wider { x.width < width → Adds self.old self.new result (Join (constant_net (width - x.width) 0) x) }
        ensures cut { width < x.width → Gives self.old self.new (λ ws. word_on ws result ≡ word_on ws x % 2 ^ width) }
        ensures kept { x.width ≤ width → Gives self.old self.new (λ ws. word_on ws result ≡ word_on ws x) }
    {
        if width < x.width {
            self.part(x, 0, width)
        } else if width == x.width {
            x
        } else {
            let zeros = constant(width - x.width, 0);
            self.wire(width, Expression::Join(zeros, x))
        }
    }

    /// Whether x is one of these words.
    pub fn is_any(&mut self, x: Net, words: &[u64]) -> Net
        ensures width { result.width ≡ 1 }
        ensures grows { (parts : Widths) → self.new.lacks ≡ false → IsLogic parts self.old → IsNet (widths_with parts self.old) x
            → All (λ word. word < 2 ^ x.width) words.now → Grows parts self.old self.new result }
        ensures gives { Gives self.old self.new
            (λ ws. word_on ws result ≡ bit_of (list_any (λ word. word_on ws x == word) words.now)) }
    {
        let mut any = never();
        for word in words {
            let is_word = self.is(x, *word);
            any = self.or(any, is_word);
        }
        any
    }
}
