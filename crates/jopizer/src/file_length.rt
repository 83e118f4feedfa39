//! How many bytes the file of an image has, and that they are within the limit.
ghost use Rattle.std.specs.Prelude.{◌≡◌, ◌≤◌, length, IfSome, IfErr, OnOk};
ghost use Rattle.std.specs.List.{flat_map};
ghost use Rattle.image_file.specs.Linked.{contents, file_bytes};
ghost use Rattle.image_words.specs.Limits.{most_words};
ghost use Rattle.jopizer.specs.Linked.{file_length as length_of, most_image_bytes};
ghost use Rattle.jopizer.specs.Refused.{IsTooLongOr};

use crate::refusal::LinkRefusal;

/// How many bytes the file of an image has at most.
const MOST_BYTES: u64 = 16_777_216;

/// How many bytes files take in an image's file; nothing where 64 bits don't count them.
fn bytes_of_files(files: &[Vec<u8>]) -> Option<u64>
    ensures { IfSome result (λ count. count ≡ length (flat_map file_bytes (contents files.now))) }
{
    let mut count: u64 = 0;
    for file in files {
        count = count.checked_add(file.len() as u64)?.checked_add(4)?;
    }
    Some(count)
}

/// How many bytes an image's file has; nothing where 64 bits don't count them.
#[tactic(auto, using(crate::proofs::LengthLemmas::length_is))]
fn file_length(main: &[u8], words: &[u32], files: &[Vec<u8>]) -> Option<u64>
    requires { length words.now ≤ most_words }
    ensures { IfSome result (λ count. count ≡ length_of (record { main = main.now; words = words.now; files = contents files.now })) }
{
    let front = 16 + 4 * words.len() as u64;
    bytes_of_files(files)?
        .checked_add(main.len() as u64)?
        .checked_add(front)
}

/// Refuses an image whose file is too long.
pub(crate) fn within_length(
    main: &[u8],
    words: &[u32],
    files: &[Vec<u8>],
) -> Result<(), LinkRefusal>
    requires { length words.now ≤ most_words }
    ensures small { OnOk result (length_of (record { main = main.now; words = words.now; files = contents files.now }) ≤ most_image_bytes) }
    ensures refused { IfErr result (IsTooLongOr (record { main = main.now; words = words.now; files = contents files.now })) }
{
    // No memory has more than 64 bits count.
    let Some(count) = file_length(main, words, files) else {
        return Err(LinkRefusal::NoMemory);
    };
    if count > MOST_BYTES {
        Err(LinkRefusal::FileTooLarge(count, MOST_BYTES))
    } else {
        Ok(())
    }
}
