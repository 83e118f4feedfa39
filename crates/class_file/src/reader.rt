//! Class files from bytes.
ghost use Rattle.std.specs.Prelude.{◌≡◌, ◌↔◌, ℕ, IfOk, IfErr, Err, MatchResult};
ghost use Rattle.base.specs.Reading.{Gives};
ghost use Rattle.base.specs.declared.fault.FormatFault.TheVariants as faults;
ghost use Rattle.class_pool.specs.declared.class.ClassFile.{ClassFile};
ghost use Rattle.class_file.specs.declared.fault.ClassFault.TheVariants as answers;
ghost use Rattle.class_file.specs.Reading.{header_in};
ghost use Rattle.class_rules.specs.Grammar.{IsClassOf};
ghost use Rattle.class_file.specs.Grammar.{IsBehindHeader, IsOtherVersion};

use crate::fault::ClassFault;
use crate::structure::inside_of;
use base::{FormatFault, NoMemory};
use class_pool::numbers::{u16_at, u32_at};
use class_pool::{ClassFile, read_pool};
use class_rules::follows_rules;
use std::alloc::Global;

/// The first bytes of each class file.
const MAGIC: u32 = 0xCAFEBABE;

/// The versions that are read, of Java 6 and of Java 8.
pub(crate) const OLDEST: u16 = 50;

pub(crate) const NEWEST: u16 = 52;

/// The minor and the major version, and the bytes behind the header.
#[tactic(auto, unfolding(crate::specs::Reading::header_in))]
fn header_at(bytes: &[u8]) -> Result<((u16, u16), &[u8]), FormatFault>
    ensures read { Gives (λ x. (x.0, x.1.now)) result (header_in bytes.now) }
    ensures bad { IfErr result (λ fault. fault ≡ faults.Bad) }
{
    let (magic, rest) = u32_at(bytes)?;
    if magic != MAGIC {
        return Err(FormatFault::Bad);
    }
    let (minor, rest) = u16_at(rest)?;
    let (major, rest) = u16_at(rest)?;
    Ok(((minor, major), rest))
}

/// What stands behind a header.
fn class_behind(
    alloc: Global,
    minor: u16,
    major: u16,
    bytes: &[u8],
) -> Result<ClassFile, FormatFault>
    ensures found { IfOk result (IsBehindHeader minor major bytes.now) }
    ensures only { (c : ClassFile) → IsBehindHeader minor major bytes.now c → MatchResult result (λ d. d ≡ c) (λ fault. fault ≡ faults.NoMemory) }
{
    let (pool, taken) = read_pool(alloc, bytes)?;
    let class = inside_of(alloc, minor, major, pool, &bytes[taken..])?;
    match follows_rules(alloc, &class) {
        Ok(true) => Ok(class),
        Ok(false) => Err(FormatFault::Bad),
        Err(NoMemory) => Err(FormatFault::NoMemory),
    }
}

/// Reads a class file, which has to be all of the bytes.
pub fn read_class(alloc: Global, bytes: &[u8]) -> Result<ClassFile, ClassFault>
    // What is read is a class file, and the bytes are its spelling.
    ensures found { IfOk result (IsClassOf bytes.now) }
    // Bytes that are a class file are read as that one, unless memory runs out.
    ensures only { (c : ClassFile) → IsClassOf bytes.now c → MatchResult result (λ d. d ≡ c) (λ fault. fault ≡ answers.NoMemory) }
    ensures version { (major : ℕ) → (result ≡ Err (answers.Version major)) ↔ IsOtherVersion bytes.now major }
    ensures bad { result ≡ Err answers.Bad → ((c : ClassFile) → IsClassOf bytes.now c → ⊥) × ((major : ℕ) → IsOtherVersion bytes.now major → ⊥) }
{
    let ((minor, major), rest) = header_at(bytes)?;
    if major < OLDEST || NEWEST < major {
        return Err(ClassFault::Version(major));
    }
    Ok(class_behind(alloc, minor, major, rest)?)
}
