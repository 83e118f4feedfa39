//! Where the code of a method lies in memory.
ghost use Rattle.std.specs.Prelude.{◌≡◌, ◌+◌, ◌*◌, ◌%◌, ◌^◌};

/// The code of a method: the place of its first word in memory, and how many words it has.
#[derive(Clone, Copy)]
pub(crate) struct Code {
    pub place: u64,
    pub words: u32,
}

/// The code of a method whose record lies at a place of memory. Word 1 of the record has the number of words
/// of code in its low half, and word 3 is the number of entries of the exception table, of three words each,
/// which lies between the record and the code.
pub(crate) fn code_at(m: u32, word1: u32, word3: u32) -> Code
    ensures place { result.place ≡ m + 4 + 3 * word3 }
    ensures words { result.words ≡ word1 % 2 ^ 16 }
{
    Code {
        place: m as u64 + 4 + 3 * word3 as u64,
        words: word1 % 65536,
    }
}
