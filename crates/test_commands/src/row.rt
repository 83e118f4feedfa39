//! The items of a row.

use std::alloc::{AllocError, Global};
use test_rows::{RowFault, hex_bytes};

/// Whether an item is no word, but says what the input has or which calls fail.
fn is_setting(item: &str) -> bool {
    matches!(item.as_bytes(), [b'<' | b'/' | b'!' | b'^' | b'?', ..])
}

/// The word of an item.
fn word_of(item: &str) -> &str {
    match item.split_once('=') {
        Some((word, _)) => word,
        None => item,
    }
}

/// The bytes of the file that an item's word names, if it has one.
fn file_of(alloc: Global, item: &str, last: &[u8]) -> Result<Option<Vec<u8>>, RowFault> {
    match item.split_once('=') {
        None => Ok(None),
        Some((_, "@")) => Ok(Some(last.to_vec(alloc)?)),
        Some((_, digits)) => Ok(Some(hex_bytes(alloc, digits.as_bytes())?)),
    }
}

/// The words of a line.
pub fn words_of(alloc: Global, line: &str) -> Result<Vec<&str>, AllocError> {
    let mut words = Vec::new(alloc);
    for item in line.split(' ') {
        if !is_setting(item) {
            words.push(word_of(item))?;
        }
    }
    Ok(words)
}

/// The files of the words of a line.
pub fn files_of(alloc: Global, line: &str, last: &[u8]) -> Result<Vec<Option<Vec<u8>>>, RowFault> {
    let mut files = Vec::new(alloc);
    for item in line.split(' ') {
        if !is_setting(item) {
            files.push(file_of(alloc, item, last)?)?;
        }
    }
    Ok(files)
}

/// The input of a line.
pub fn input_of(alloc: Global, line: &str) -> Result<Vec<u8>, RowFault> {
    for item in line.split(' ') {
        if let [b'<', digits @ ..] = item.as_bytes() {
            return hex_bytes(alloc, digits);
        }
    }
    Ok(Vec::new(alloc))
}

/// The numbers behind this mark.
pub fn numbers_of(alloc: Global, line: &str, mark: char) -> Result<Vec<u64>, AllocError> {
    let mut numbers = Vec::new(alloc);
    for item in line.split(' ') {
        if let Some(digits) = item.strip_prefix(mark) {
            if let Ok(number) = digits.parse::<u64>() {
                numbers.push(number)?;
            }
        }
    }
    Ok(numbers)
}
