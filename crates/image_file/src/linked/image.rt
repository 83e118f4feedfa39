//! What the file of a linked image holds.
ghost use Rattle.std.specs.Prelude.{◌≡◌};
ghost use Rattle.image_file.specs.Linked.{LinkedContent, IsLinkedContent, contents};

use std::marker::Model;

/// A linked image as its file holds it.
#[derive(Drop)]
pub struct LinkedImage {
    pub(crate) main_name: Vec<u8>,
    pub(crate) words: Vec<u32>,
    pub(crate) files: Vec<Vec<u8>>,
}

impl Model for LinkedImage {
    ghost use Rattle.image_file.specs.Linked.{LinkedContent};
    ghost use Rattle.image_file.specs.LinkedMeaning.{image_of, IsKept};

    ghost Value = { LinkedContent };

    ghost view = { image_of };

    ghost invariant = { IsKept };
}

impl LinkedImage {
    /// The bytes of the main class's name.
    pub fn main_name(&self) -> &[u8]
        ensures name { result.now ≡ self.now.main }
        ensures image { IsLinkedContent self.now }
    {
        &self.main_name
    }

    /// The words.
    pub fn words(&self) -> &[u32]
        ensures words { result.now ≡ self.now.words }
        ensures image { IsLinkedContent self.now }
    {
        &self.words
    }

    /// The bytes of each class file.
    pub fn files(&self) -> &[Vec<u8>]
        ensures files { contents result.now ≡ self.now.files }
        ensures image { IsLinkedContent self.now }
    {
        &self.files
    }

    /// The name, the words and the class files, given back.
    pub fn into_parts(self) -> (Vec<u8>, Vec<u32>, Vec<Vec<u8>>)
        ensures name { result.0.items ≡ self.main }
        ensures words { result.1.items ≡ self.words }
        ensures files { contents result.2.items ≡ self.files }
        ensures image { IsLinkedContent self }
    {
        (self.main_name, self.words, self.files)
    }
}
