//! Linked images read from their files.
ghost use Rattle.std.specs.Prelude.{◌≡◌, ◌↔◌, IsTrue, MatchOption, IfOk, List, ℕ};
ghost use Rattle.std.specs.List.{flat_map, AllByRecursion};
ghost use Rattle.image_file.specs.Linked.{LinkedContent, IsHalfWord, IsWord, IsName, IsFile, u2, u4, name_bytes, file_bytes, IsLinkedFile, contents};
ghost use Rattle.image_file.specs.Front.{FindsItem, AreFiles, AreRegions};

use crate::linked::{LinkedFault, LinkedImage, MARK};
use std::alloc::{AllocError, Global};

/// The parts of a file that are read with memory.
#[derive(Clone, Copy)]
struct Regions<'a> {
    main_name: &'a [u8],
    words: &'a [u8],
    files: &'a [u8],
}

fn u16_at(bytes: &[u8]) -> Option<(u16, &[u8])>
    ensures { FindsItem (λ x. (x.0, x.1.now)) u2 IsHalfWord bytes.now result }
{
    let (number, rest) = bytes.split_first_chunk::<2>()?;
    Some((u16::from_be_bytes(*number), rest))
}

fn u32_at(bytes: &[u8]) -> Option<(u32, &[u8])>
    ensures { FindsItem (λ x. (x.0, x.1.now)) u4 IsWord bytes.now result }
{
    let (number, rest) = bytes.split_first_chunk::<4>()?;
    Some((u32::from_be_bytes(*number), rest))
}

/// A length of 16 bits and so many bytes.
fn name_at(bytes: &[u8]) -> Option<(&[u8], &[u8])>
    ensures { FindsItem (λ x. (x.0.now, x.1.now)) name_bytes IsName bytes.now result }
{
    let (length, rest) = u16_at(bytes)?;
    rest.split_at_checked(length as usize)
}

/// A length of 32 bits and so many bytes.
fn file_at(bytes: &[u8]) -> Option<(&[u8], &[u8])>
    ensures { FindsItem (λ x. (x.0.now, x.1.now)) file_bytes IsFile bytes.now result }
{
    let (length, rest) = u32_at(bytes)?;
    rest.split_at_checked(length as usize)
}

/// Whether all of the bytes are so many files.
fn are_files(count: u32, bytes: &[u8]) -> bool
    ensures { IsTrue result ↔ AreFiles count bytes.now }
{
    let mut rest = bytes;
    for _ in 0..count {
        let Some((_, after)) = file_at(rest) else {
            return false;
        };
        rest = after;
    }
    rest.is_empty()
}

/// The parts of the file, if the bytes are one.
fn regions_of(bytes: &[u8]) -> Option<Regions<'_>>
    ensures { MatchOption result
        ((image : LinkedContent) → ¬ IsLinkedFile bytes.now image)
        (λ r. AreRegions bytes.now r.main_name.now r.words.now r.files.now) }
{
    let rest = bytes.strip_prefix(MARK)?;
    let (main_name, rest) = name_at(rest)?;
    let (word_count, rest) = u32_at(rest)?;
    let (file_count, rest) = u32_at(rest)?;
    let (words, files) = rest.split_at_checked(4 * word_count as usize)?;
    if !are_files(file_count, files) {
        return None;
    }
    Some(Regions {
        main_name,
        words,
        files,
    })
}

fn words_of(alloc: Global, bytes: &[u8]) -> Result<Vec<u32>, AllocError>
    ensures { IfOk result (λ words. (xs : List ℕ) → AllByRecursion IsWord xs → bytes.now ≡ flat_map u4 xs → words.items ≡ xs) }
{
    let mut words = Vec::with_capacity(alloc, bytes.len() / 4)?;
    let mut rest = bytes;
    while let Some((word, after)) = u32_at(rest) {
        words.push(word)?;
        rest = after;
    }
    Ok(words)
}

fn files_of(alloc: Global, bytes: &[u8]) -> Result<Vec<Vec<u8>>, AllocError>
    ensures { IfOk result (λ files. (xs : List (List ℕ)) → AllByRecursion IsFile xs → bytes.now ≡ flat_map file_bytes xs → contents files.items ≡ xs) }
{
    let mut files = Vec::new(alloc);
    let mut rest = bytes;
    while let Some((file, after)) = file_at(rest) {
        files.push(Vec::from_slice(alloc, file)?)?;
        rest = after;
    }
    Ok(files)
}

/// The image whose file the bytes are. Memory is asked for only where there is one.
pub fn read_linked(alloc: Global, bytes: &[u8]) -> Result<LinkedImage, LinkedFault>
    ensures image { IfOk result (IsLinkedFile bytes.now) }
    ensures bad { result ≡ Err LinkedFault.Bad ↔ ((image : LinkedContent) → ¬ IsLinkedFile bytes.now image) }
{
    let Some(regions) = regions_of(bytes) else {
        return Err(LinkedFault::Bad);
    };
    let main_name = Vec::from_slice(alloc, regions.main_name)?;
    let words = words_of(alloc, regions.words)?;
    let files = files_of(alloc, regions.files)?;
    Ok(LinkedImage {
        main_name,
        words,
        files,
    })
}
