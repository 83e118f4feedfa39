//! The class whose main is run.
ghost use Rattle.std.specs.Prelude.{◌≡◌, false, IfOk};
ghost use Rattle.std.specs.Option.{option_copied, option_map_or};
ghost use Rattle.class_pool.specs.Utf8.{utf8_bytes};
ghost use Rattle.class_lookup.specs.Parts.{same_text, name_of};
ghost use Rattle.program_resolution.specs.Linked.{main_class, main_name, declares_main};

use base::NoMemory;
use class_lookup::parts::{has_flags, has_signature, name_of};
use class_making::parts::text;
use class_pool::utf8::text_bytes;
use class_pool::{ClassFile, Units};
use class_rules::flags::{ACC_PUBLIC, ACC_STATIC};
use std::alloc::Global;

/// Whether these bytes spell the name of the class.
fn is_spelled(alloc: Global, class: &ClassFile, main: &[u8]) -> Result<bool, NoMemory>
    ensures { IfOk result (λ spelled. spelled ≡ same_text (utf8_bytes (name_of class.now)) main.now) }
{
    let bytes = text_bytes(alloc, name_of(class))?;
    Ok(bytes.as_slice() == main)
}

/// The first of the classes whose name these bytes spell.
fn main_class<'a>(
    alloc: Global,
    files: &'a [ClassFile],
    main: &[u8],
) -> Result<Option<&'a ClassFile>, NoMemory>
    ensures { IfOk result (λ class. option_copied class ≡ main_class files.now main.now) }
{
    for class in files {
        if is_spelled(alloc, class, main)? {
            return Ok(Some(class));
        }
    }
    Ok(None)
}

/// Whether the class declares `public static void main(String[])`.
fn declares_main(alloc: Global, class: &ClassFile) -> Result<bool, NoMemory>
    ensures { IfOk result (λ declares. declares ≡ declares_main class.now) }
{
    let name = text(alloc, "main")?;
    let descriptor = text(alloc, "([Ljava/lang/String;)V")?;
    Ok(
        class.methods.as_slice().iter().any(|method| {
            has_flags(method.flags, ACC_PUBLIC)
                && has_flags(method.flags, ACC_STATIC)
                && has_signature(class, method, name.as_slice(), descriptor.as_slice())
        }),
    )
}

/// The class whose main is run: its name, and whether it declares main.
#[derive(Drop)]
pub(crate) struct MainClass {
    pub(crate) name: Units,
    pub(crate) declares_main: bool,
}

/// The class that these bytes name.
pub(crate) fn find_main(
    alloc: Global,
    files: &[ClassFile],
    main: &[u8],
) -> Result<MainClass, NoMemory>
    ensures name { IfOk result (λ m. m.name ≡ main_name files.now main.now) }
    ensures declares { IfOk result (λ m. m.declares_main ≡ option_map_or declares_main (main_class files.now main.now) false) }
{
    match main_class(alloc, files, main)? {
        Some(class) => Ok(MainClass {
            name: Units::new(Vec::from_slice(alloc, name_of(class))?),
            declares_main: declares_main(alloc, class)?,
        }),
        None => Ok(MainClass {
            name: Units::new(Vec::new(alloc)),
            declares_main: false,
        }),
    }
}
