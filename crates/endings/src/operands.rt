//! The texts of operands that were read.
ghost use Rattle.std.specs.Prelude.{◌≡◌, ◌≤◌, All, length};
ghost use Rattle.base.specs.Sizes.{longest_file};
ghost use Rattle.image_file.specs.Linked.{contents};
ghost use Rattle.endings.specs.Line.{text_of_word};

/// The text of the operand of this number.
pub fn operand_text(operands: &[Vec<u8>], number: usize) -> &[u8]
    ensures { result.now ≡ text_of_word (contents operands.now) number }
{
    match operands.get(number) {
        Some(text) => text.as_slice(),
        None => b"",
    }
}

/// The text of the operand of this number, where none is too long; that of the image is number 0.
pub fn operand(operands: &[Vec<u8>], number: usize) -> &[u8]
    requires { All (λ text. length text.items ≤ longest_file) operands.now }
    ensures text { result.now ≡ text_of_word (contents operands.now) number }
    ensures short { length result.now ≤ longest_file }
{
    operand_text(operands, number)
}
