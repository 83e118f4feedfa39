//! The tables of methods and of interface methods.
ghost use Rattle.std.specs.Prelude.{◌≡◌, ◌++◌, ◌<◌, length, map, OnOk, replicate};
ghost use Rattle.program_tables.specs.Numbers.{is_coded};
ghost use Rattle.image_words.specs.Layout.{outline_of};
ghost use Rattle.image_words.specs.Slots as numbered;
ghost use Rattle.image_words.specs.Slots.{interface_methods};
ghost use Rattle.image_words.specs.Regions.{code_place, selected_place, implemented_place, table_image, tables_region, interface_image, interfaces_region};
ghost use Rattle.image_words.specs.Outline.{IsOutline};
ghost use Rattle.image_layout.specs.Rows.{AreSelected, AreAllRows, table_methods};
ghost use Rattle.class_selection.specs.Selecting.{IsSelected};

use crate::selecting::{interface_rows, slot_rows};
use base::{Items, NoMemory};
use class_lookup::{Classes, Place, method_at};
use class_selection::Selected;
use image_builder::add_zeros;
use image_words::{Outline, is_interface};
use resolved_program::Program;
use std::alloc::Global;

/// Whether the method has code.
pub(crate) fn is_coded(classes: &Classes, place: Place) -> bool
    ensures { result ≡ is_coded classes.now place }
{
    match method_at(classes, place) {
        Some(method) => method.code().is_some(),
        None => false,
    }
}

/// The place of a method with code, else 0.
fn code_place(program: &Program, outline: &Outline, method: Option<Place>) -> u32
    requires { IsOutline program.now outline.now }
    ensures { result ≡ code_place program.now (outline_of program.now) method }
{
    match method {
        Some(place) => {
            if !is_coded(program.hierarchy().classes(), place) {
                return 0;
            }
            match program.method_number(place) {
                Some(number) => outline.method_place(number),
                None => 0,
            }
        }
        None => 0,
    }
}

/// The places of what is selected.
fn add_places(
    words: &mut Vec<u32>,
    program: &Program,
    outline: &Outline,
    row: &[Selected],
) -> Result<(), NoMemory>
    requires { IsOutline program.now outline.now }
    ensures { OnOk result (words.new.items ≡ words.old.items ++ map (λ s. code_place program.now (outline_of program.now) s.place) row.now) }
{
    for selected in row {
        words.push(code_place(program, outline, selected.place))?;
    }
    Ok(())
}

/// The method table of a class, by its row; an interface has none.
fn add_table(
    words: &mut Vec<u32>,
    program: &Program,
    outline: &Outline,
    rows: &[Items<Selected>],
    class: u32,
) -> Result<(), NoMemory>
    requires outline { IsOutline program.now outline.now }
    requires class { class < length program.now }
    requires rows { AreAllRows program.now (numbered.slots program.now) rows.now }
    ensures { OnOk result (words.new.items ≡ words.old.items ++ table_image program.now (outline_of program.now) class) }
{
    if is_interface(program.hierarchy().classes(), class) {
        return Ok(());
    }
    add_places(words, program, outline, rows[class as usize].as_slice())
}

/// The method tables.
pub(crate) fn add_tables(
    words: &mut Vec<u32>,
    alloc: Global,
    program: &Program,
    outline: &Outline,
) -> Result<(), NoMemory>
    requires { IsOutline program.now outline.now }
    ensures { OnOk result (words.new.items ≡ words.old.items ++ tables_region program.now (outline_of program.now)) }
{
    let rows = slot_rows(alloc, program.hierarchy(), &outline.slots)?;
    for class in 0..program.class_count() {
        add_table(words, program, outline, &rows, class)?;
    }
    Ok(())
}

/// The word of an interface's method in the table of a class: 0 where the class doesn't implement the interface.
fn implemented_place(
    program: &Program,
    outline: &Outline,
    class: u32,
    method: Place,
    selected: &Selected,
) -> u32
    requires outline { IsOutline program.now outline.now }
    requires class { class < length program.now }
    requires selected { IsSelected program.now class method selected.now }
    ensures { result ≡ implemented_place program.now (outline_of program.now) class method }
{
    if program.extends(class, method.class) {
        code_place(program, outline, selected.place)
    } else {
        0
    }
}

/// The words of these methods of interfaces in the table of a class, by its row.
fn add_implemented(
    words: &mut Vec<u32>,
    program: &Program,
    outline: &Outline,
    class: u32,
    methods: &[Place],
    row: &[Selected],
) -> Result<(), NoMemory>
    requires outline { IsOutline program.now outline.now }
    requires class { class < length program.now }
    requires row { AreSelected program.now class methods.now row.now }
    ensures { OnOk result (words.new.items ≡ words.old.items ++ map (implemented_place program.now (outline_of program.now) class) methods.now) }
{
    for (i, method) in methods.iter().enumerate() {
        let place = implemented_place(program, outline, class, *method, &row[i]);
        words.push(place)?;
    }
    Ok(())
}

/// The table of interface methods of a class, by its row; an interface has none.
fn add_interface_table(
    words: &mut Vec<u32>,
    program: &Program,
    outline: &Outline,
    rows: &[Items<Selected>],
    class: u32,
) -> Result<(), NoMemory>
    requires outline { IsOutline program.now outline.now }
    requires class { class < length program.now }
    requires rows { AreAllRows program.now (table_methods program.now) rows.now }
    ensures { OnOk result (words.new.items ≡ words.old.items ++ interface_image program.now (outline_of program.now) class) }
{
    if is_interface(program.hierarchy().classes(), class) {
        return Ok(());
    }
    let methods = outline.interface_methods.as_slice();
    let row = rows[class as usize].as_slice();
    add_implemented(words, program, outline, class, methods, row)
}

/// The tables of interface methods, that of zeros first.
pub(crate) fn add_interfaces(
    words: &mut Vec<u32>,
    alloc: Global,
    program: &Program,
    outline: &Outline,
) -> Result<(), NoMemory>
    requires { IsOutline program.now outline.now }
    ensures { OnOk result (words.new.items ≡ words.old.items ++ interfaces_region program.now (outline_of program.now)) }
{
    let methods = outline.interface_methods.as_slice();
    let rows = interface_rows(alloc, program.hierarchy(), methods)?;
    add_zeros(words, methods.len())?;
    for class in 0..program.class_count() {
        add_interface_table(words, program, outline, &rows, class)?;
    }
    Ok(())
}
