//! What files are linked to.
ghost use Rattle.std.specs.Prelude.{◌≡◌};
ghost use Rattle.image_file.specs.Linked.{contents};
ghost use Rattle.jopizer.specs.Linked.{IsLinked};

use bytecode_verifier::Verified;
use image_layout::Layout;
use std::marker::Model;

/// A verified program, its image, and the files of which it was linked. Contracts see it as these lists.
#[derive(Drop)]
pub struct Linked {
    pub(crate) program: Verified,
    pub(crate) layout: Layout,
    pub(crate) files: Vec<Vec<u8>>,
    pub(crate) main_name: Vec<u8>,
}

impl Model for Linked {
    ghost use Rattle.image_file.specs.Linked.{contents};
    ghost use Rattle.jopizer.specs.Linked.{Parts, IsLinked};

    ghost Value = { Parts };

    ghost view = { λ a. record { classes = a.program; laid = a.layout; files = contents a.files.items; main = a.main_name.items } };

    ghost invariant = { λ a. IsLinked (record { classes = a.program; laid = a.layout; files = contents a.files.items; main = a.main_name.items }) };
}

impl Linked {
    /// The program.
    pub fn program(&self) -> &Verified
        ensures program { result.now ≡ self.now.classes }
        ensures linked { IsLinked self.now }
    {
        &self.program
    }

    /// The words of its image, and where the parts lie.
    pub fn layout(&self) -> &Layout
        ensures laid { result.now ≡ self.now.laid }
        ensures linked { IsLinked self.now }
    {
        &self.layout
    }

    /// The bytes of each file.
    pub fn files(&self) -> &[Vec<u8>]
        ensures files { contents result.now ≡ self.now.files }
        ensures linked { IsLinked self.now }
    {
        &self.files
    }

    /// The bytes of the main class's name.
    pub fn main_name(&self) -> &[u8]
        ensures name { result.now ≡ self.now.main }
        ensures linked { IsLinked self.now }
    {
        &self.main_name
    }
}
