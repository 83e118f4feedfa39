//! The lists of what invokes may run (JVM Specification SE 8, 6.5.invokevirtual and 6.5.invokeinterface).
ghost use Rattle.std.specs.Prelude.{◌≡◌, ◌↔◌, ℕ, ◌<◌, true, ◌&&◌, not, [], ◌∷◌, length, map, Contains, IfOk};
ghost use Rattle.std.specs.List.{filter_map, range_with_len};
ghost use Rattle.std.specs.List.Sorted.{IsStrictlyIncreasing};
ghost use Rattle.bytecode_model.specs.Lists.{onto};
ghost use Rattle.bytecode_typing.specs.Lawful.{Lawful};
ghost use Rattle.program_tables.specs.Numbers.{methods_by_number, method_number};
ghost use Rattle.program_tables.specs.Resolved.{resolved};
ghost use Rattle.bytecode_typing.specs.WellPlaced.{WellPlaced};
ghost use Rattle.flow_table.specs.Made.{AreCoded, AreMade};
ghost use Rattle.flow_table.specs.Receivers.{lists_of, AreBelow};
ghost use Rattle.flow_table.specs.Targets.{IsVirtual, IsSelectedList, AreReceivers, AreSelected, AreTargets};

use crate::marks::marks_of;
use crate::receivers::receivers_of;
use base::{Items, NoMemory};
use class_hierarchy::Place;
use method_flow::FlowMethod;
use program_tables::MethodShape;
use program_tables::laws::{members_are_there, methods_stand_by_number};
use resolved_program::Program;
use std::alloc::Global;

/// A list for each method with code, that has it alone.
fn alone(alloc: Global, coded: u32) -> Result<Vec<Items<u32>>, NoMemory>
    ensures { IfOk result (λ lists. lists.items ≡ map (λ t. t ∷ []) (range_with_len 0 coded)) }
{
    let mut lists = Vec::new(alloc);
    for method in 0..coded {
        let list = Vec::from_slice(alloc, &[method])?;
        lists.push(Items::new(list))?;
    }
    Ok(lists)
}

/// The number of a method, if there is one.
fn number_of(program: &Program, place: Option<Place>) -> Option<u32>
    ensures { result ≡ onto place (method_number program.now) }
{
    match place {
        Some(place) => program.method_number(place),
        None => None,
    }
}

/// The numbers of those of these methods that are there.
fn numbers_of(
    alloc: Global,
    program: &Program,
    places: &[Option<Place>],
) -> Result<Vec<u32>, NoMemory>
    ensures { IfOk result (λ numbers. numbers.items ≡ filter_map (λ p. onto p (method_number program.now)) places.now) }
{
    let mut numbers = Vec::new(alloc);
    for place in places {
        if let Some(number) = number_of(program, *place) {
            numbers.push(number)?;
        }
    }
    Ok(numbers)
}

/// The numbers, each once, rising.
fn rising(mut numbers: Vec<u32>) -> Vec<u32>
    ensures rising { IsStrictlyIncreasing result.items }
    ensures same { (n : ℕ) → Contains result.items n ↔ Contains numbers.items n }
{
    numbers.sort_unstable();
    numbers.dedup();
    numbers
}

/// The methods that are selected for a method and these receivers, which are the classes of objects of its class, rising.
fn selected_among(
    alloc: Global,
    program: &Program,
    receivers: &[u32],
    method: u32,
) -> Result<Items<u32>, NoMemory>
    requires lawful { Lawful (resolved program.now) }
    requires method { method < length (methods_by_number program.now) }
    requires is_virtual { IsVirtual (resolved program.now) method }
    requires receivers { AreReceivers program.now method receivers.now }
    ensures { IfOk result (IsSelectedList (resolved program.now) method (Unit {0})) }
{
    methods_stand_by_number();
    let places = program
        .hierarchy()
        .select_each(alloc, receivers, program.method(method))?;
    let numbers = numbers_of(alloc, program, &places)?;
    Ok(Items::new(rising(numbers)))
}

/// Whether it is an instance method and no instance initialization method.
fn is_virtual(shape: &MethodShape) -> bool
    ensures { result ≡ (shape.now.has_this && not shape.now.is_init) }
{
    shape.has_this && !shape.is_init
}

/// The methods that are selected for a method, rising; none where it is no instance method or an instance initialization method.
fn selected_for(
    alloc: Global,
    program: &Program,
    below: &[Vec<u32>],
    method: u32,
) -> Result<Items<u32>, NoMemory>
    requires lawful { Lawful (resolved program.now) }
    requires method { method < length (methods_by_number program.now) }
    requires below { AreBelow program.now (length program.now) (lists_of below.now) }
    ensures { IfOk result (IsSelectedList (resolved program.now) method (Unit {0})) }
{
    methods_stand_by_number();
    members_are_there();
    if is_virtual(program.shape(method)) {
        let owner = program.method(method).class;
        selected_among(alloc, program, &below[owner as usize], method)
    } else {
        Ok(Items::new(Vec::new(alloc)))
    }
}

/// The same where the list is wanted, and else none.
fn selected_list(
    alloc: Global,
    program: &Program,
    below: &[Vec<u32>],
    method: u32,
    wanted: bool,
) -> Result<Items<u32>, NoMemory>
    requires lawful { Lawful (resolved program.now) }
    requires method { method < length (methods_by_number program.now) }
    requires below { AreBelow program.now (length program.now) (lists_of below.now) }
    ensures { IfOk result (IsSelectedList (resolved program.now) method (wanted ≡ true)) }
{
    if wanted {
        selected_for(alloc, program, below, method)
    } else {
        Ok(Items::new(Vec::new(alloc)))
    }
}

/// For each marked method those that are selected for it; an empty list for each other.
fn selected_lists(
    alloc: Global,
    program: &Program,
    marks: &[bool],
) -> Result<Vec<Items<u32>>, NoMemory>
    requires lawful { Lawful (resolved program.now) }
    requires marks { length marks.now ≡ length (methods_by_number program.now) }
    ensures { IfOk result (λ lists. AreSelected (resolved program.now) marks.now (length (methods_by_number program.now)) lists.items) }
{
    let below = receivers_of(alloc, program.hierarchy())?;
    let mut lists = Vec::new(alloc);
    for method in 0..program.method_count() {
        let wanted = marks[method as usize];
        lists.push(selected_list(alloc, program, &below, method, wanted)?)?;
    }
    Ok(lists)
}

/// Each method with code alone, then for each method that an invoke of these methods names those that are selected for it. `coded`
/// methods have code.
pub(crate) fn target_lists(
    alloc: Global,
    program: &Program,
    methods: &[FlowMethod],
    coded: u32,
) -> Result<Vec<Items<u32>>, NoMemory>
    requires placed { WellPlaced (resolved program.now) }
    requires lawful { Lawful (resolved program.now) }
    requires coded { AreCoded program.now coded }
    requires methods { AreMade program.now coded coded methods.now }
    ensures { IfOk result (λ lists. AreTargets program.now coded methods.now lists.items) }
{
    methods_stand_by_number();
    let marks = marks_of(alloc, methods, coded, program.method_count())?;
    let mut selected = selected_lists(alloc, program, &marks)?;
    let mut lists = alone(alloc, coded)?;
    lists.append(&mut selected)?;
    Ok(lists)
}
