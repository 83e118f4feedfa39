//! Linked images written as files.
ghost use Rattle.std.specs.Prelude.{◌≡◌, ◌<◌, ◌^◌, ◌++◌, length, OnOk, IfOk};
ghost use Rattle.std.specs.List.{flat_map, AllByRecursion};
ghost use Rattle.image_file.specs.Linked.{IsName, IsFile, u4, file_bytes, IsLinkedFile, contents};

use crate::linked::MARK;
use base::NoMemory;
use std::alloc::Global;

fn put_words(out: &mut Vec<u8>, words: &[u32]) -> Result<(), NoMemory>
    ensures { OnOk result (out.new.items ≡ out.old.items ++ flat_map u4 words.now) }
{
    for word in words {
        out.extend_from_slice(&word.to_be_bytes())?;
    }
    Ok(())
}

fn put_files(out: &mut Vec<u8>, files: &[Vec<u8>]) -> Result<(), NoMemory>
    requires { AllByRecursion IsFile (contents files.now) }
    ensures { OnOk result (out.new.items ≡ out.old.items ++ flat_map file_bytes (contents files.now)) }
{
    for file in files {
        out.extend_from_slice(&(file.len() as u32).to_be_bytes())?;
        out.extend_from_slice(file)?;
    }
    Ok(())
}

/// The file of the image of this main class, these words and these class files.
pub fn write_linked(
    alloc: Global,
    main_name: &[u8],
    words: &[u32],
    files: &[Vec<u8>],
) -> Result<Vec<u8>, NoMemory>
    requires name { IsName main_name.now }
    requires word_count { length words.now < 2 ^ 32 }
    requires file_count { length files.now < 2 ^ 32 }
    requires lengths { AllByRecursion IsFile (contents files.now) }
    ensures { IfOk result (λ bytes. IsLinkedFile bytes.items (record { main = main_name.now; words = words.now; files = contents files.now })) }
{
    let mut out = Vec::new(alloc);
    out.extend_from_slice(MARK)?;
    out.extend_from_slice(&(main_name.len() as u16).to_be_bytes())?;
    out.extend_from_slice(main_name)?;
    out.extend_from_slice(&(words.len() as u32).to_be_bytes())?;
    out.extend_from_slice(&(files.len() as u32).to_be_bytes())?;
    put_words(&mut out, words)?;
    put_files(&mut out, files)?;
    Ok(out)
}
