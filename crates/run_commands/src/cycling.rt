//! The run of a cyclic executive: how its slots kept their lengths.
ghost use Rattle.std.specs.Prelude.{◌≡◌, ◌+◌, ◌≤◌, ◌<◌, ◌^◌, ℕ, List, Option, None, All, length, IfOk};
ghost use Rattle.base.specs.Sizes.{longest_file};
ghost use Rattle.device_traits.specs.declared.seen.Seen.{Seen};
ghost use Rattle.outside.specs.Files.{contents, AreFiles};
ghost use Rattle.command_line.specs.Range.{AreSettings};
ghost use Rattle.slot_table.specs.declared.slot.Slot.{Slot};
ghost use Rattle.slot_table.specs.Grammar.{IsTableRead};
ghost use Rattle.run_devices.specs.Lent.{lent};
ghost use Rattle.endings.specs.Line.{text_of_word};
ghost use Rattle.endings.specs.World.{world};
ghost use Rattle.endings.specs.Leaving.{Leaves, FailsRisen};
ghost use Rattle.endings.specs.Fitting.{CodesFit};
ghost use Rattle.run_commands.specs.Cycling.{counts_with, with_slots, IsCounter, CyclesHeld, CyclesLinked, CyclesOperands, CyclesFiles};

use crate::following::follow_lent;
use crate::linked_file::said;
use activation_laws::seen_are_within;
use analysis_commands::{executive_method, table_of};
use answer_lines::{Counts, SlotCounts};
use base::NoMemory;
use boundary::laws::runs_are_in_a_row;
use boundary::uncaught_classes_are_there;
use command_line::Settings;
use endings::executive::{link_behind, table_ending};
use endings::fitting::unheld;
use endings::linking::read_operands;
use endings::operands::operand;
use endings::outcome::Ending;
use jop_core::NoWatch;
use jopizer::Linked;
use outside::{Files, Sink, Source};
use refusal_lines::name_room;
use run_follower::watch::laws::slots_are_exact;
use run_follower::watch::{SlotCounter, Slots};
use slot_table::{SlotTable, read_table};
use std::alloc::Global;

/// The slots, and the clock of these counts.
fn counts_with(slots: Slots, counts: Counts) -> SlotCounts
    ensures { result ≡ counts_with slots counts }
{
    SlotCounts {
        slots: slots.ended,
        late: slots.late,
        idle: slots.idle,
        clock: counts.clock,
    }
}

/// The same ending, with the slots in place of the machine's hits and misses.
fn with_slots(ending: Ending, slots: Slots) -> Ending
    ensures { result ≡ with_slots slots ending }
{
    match ending {
        Ending::Ended(counts) => Ending::CycleEnded(counts_with(slots, counts)),
        Ending::Uncaught(class, name, counts) => {
            Ending::CycleUncaught(class, name, counts_with(slots, counts))
        }
        Ending::Spent(counts) => Ending::CycleSpent(counts_with(slots, counts)),
        other => other,
    }
}

/// What counts the slots of a table in the run of what was linked with its executive.
fn counter_of(
    alloc: Global,
    linked: &Linked,
    settings: &Settings,
    table: &SlotTable,
) -> Result<SlotCounter, NoMemory>
    ensures { IfOk result (IsCounter linked.now.classes table.now settings.now.stack) }
{
    let flow = table_of(alloc, linked.program())?;
    // A number that no method has, where there is no executive.
    let executive = executive_method(&flow).unwrap_or(u32::MAX);
    // The lengths of a table fit their type.
    table.slots();
    let lengths = table.lengths(alloc)?;
    SlotCounter::new(alloc, executive, lengths, settings.stack)
}

/// Runs what was linked, which a machine with these settings holds, and counts its slots.
fn cycle_held<S: Source, O: Sink>(
    alloc: Global,
    linked: &Linked,
    settings: &Settings,
    counter: SlotCounter,
    input: &mut S,
    out: &mut O,
) -> Ending
    requires settings { AreSettings settings.now }
    requires codes { CodesFit settings.now linked.now }
    requires memory { length linked.now.laid.words ≤ settings.now.memory }
    ensures cycles { (slots : List Slot) → IsCounter linked.now.classes slots settings.now.stack counter → CyclesHeld settings.now linked.now slots
        (lent (S.left input.old) (S.faults input.old) (O.held out.old) (O.faults out.old) None)
        (lent (S.left input.new) (S.faults input.new) (O.held out.new) (O.faults out.new) None) result }
    ensures leaves { Leaves result → (input.new ≡ input.old) × (out.new ≡ out.old) }
    ensures rose { FailsRisen result (S.faults input.old) (S.faults input.new) }
{
    // The laws are for the proof.
    uncaught_classes_are_there();
    runs_are_in_a_row();
    seen_are_within();
    slots_are_exact();
    let mut counter = counter;
    let mut watch = NoWatch;
    let program = linked.program().program();
    // After the machine is made no memory is asked for.
    let Ok(room) = name_room(alloc, program) else {
        return Ending::NoMemory;
    };
    match follow_lent(
        alloc,
        linked,
        settings,
        input,
        out,
        &mut watch,
        &mut counter,
    ) {
        Ok(followed) => with_slots(said(program, room, followed), counter.slots()),
        Err(NoMemory) => Ending::NoMemory,
    }
}

/// Runs what was linked with the executive of the table.
fn cycle_linked<S: Source, O: Sink>(
    alloc: Global,
    linked: &Linked,
    settings: &Settings,
    table: &SlotTable,
    input: &mut S,
    out: &mut O,
) -> Ending
    requires settings { AreSettings settings.now }
    ensures cycles { CyclesLinked settings.now linked.now table.now
        (lent (S.left input.old) (S.faults input.old) (O.held out.old) (O.faults out.old) None)
        (lent (S.left input.new) (S.faults input.new) (O.held out.new) (O.faults out.new) None) result }
    ensures leaves { Leaves result → (input.new ≡ input.old) × (out.new ≡ out.old) }
    ensures rose { FailsRisen result (S.faults input.old) (S.faults input.new) }
{
    if let Some(ending) = unheld(alloc, linked, settings) {
        return ending;
    }
    match counter_of(alloc, linked, settings, table) {
        Ok(counter) => cycle_held(alloc, linked, settings, counter, input, out),
        Err(NoMemory) => Ending::NoMemory,
    }
}

/// Links the class files of the operands with the executive of the table that the first one gives, and runs that.
fn cycle_table<S: Source, O: Sink>(
    alloc: Global,
    settings: &Settings,
    rounds: u32,
    operands: &mut Vec<Vec<u8>>,
    table: &SlotTable,
    input: &mut S,
    out: &mut O,
) -> Ending
    requires settings { AreSettings settings.now }
    requires some { 1 ≤ rounds }
    requires few { rounds ≤ 32767 }
    requires there { 1 ≤ length operands.old.items }
    requires few_files { length operands.old.items < 2 ^ 32 }
    requires read { IsTableRead (text_of_word (contents operands.old.items) 0) table.now }
    ensures cycles { CyclesOperands settings.now rounds (contents operands.old.items)
        (lent (S.left input.old) (S.faults input.old) (O.held out.old) (O.faults out.old) None)
        (lent (S.left input.new) (S.faults input.new) (O.held out.new) (O.faults out.new) None) result }
    ensures leaves { Leaves result → (input.new ≡ input.old) × (out.new ≡ out.old) }
    ensures rose { FailsRisen result (S.faults input.old) (S.faults input.new) }
{
    match link_behind(alloc, operands, 1, table, rounds) {
        Ok(linked) => {
            let ending = cycle_linked(alloc, &linked, settings, table, input, out);
            // By a call: what its parts' destructors do is proved there.
            drop(linked);
            ending
        }
        Err(ending) => ending,
    }
}

/// Runs the executive of operands: the table, and the class files.
fn cycle_operands<S: Source, O: Sink>(
    alloc: Global,
    settings: &Settings,
    rounds: u32,
    operands: &mut Vec<Vec<u8>>,
    input: &mut S,
    out: &mut O,
) -> Ending
    requires settings { AreSettings settings.now }
    requires some { 1 ≤ rounds }
    requires few { rounds ≤ 32767 }
    requires there { 1 ≤ length operands.old.items }
    requires few_files { length operands.old.items < 2 ^ 32 }
    requires short { All (λ text. length text.items ≤ longest_file) operands.old.items }
    ensures cycles { CyclesOperands settings.now rounds (contents operands.old.items)
        (lent (S.left input.old) (S.faults input.old) (O.held out.old) (O.faults out.old) None)
        (lent (S.left input.new) (S.faults input.new) (O.held out.new) (O.faults out.new) None) result }
    ensures leaves { Leaves result → (input.new ≡ input.old) × (out.new ≡ out.old) }
    ensures rose { FailsRisen result (S.faults input.old) (S.faults input.new) }
{
    match read_table(alloc, operand(operands, 0)) {
        Ok(table) => cycle_table(alloc, settings, rounds, operands, &table, input, out),
        Err(fault) => table_ending(fault),
    }
}

/// Runs the executive of the table of a word, and of the class files of the words behind it.
pub fn cycle_files<F: Files, S: Source, O: Sink>(
    alloc: Global,
    settings: &Settings,
    rounds: u32,
    table: u32,
    files: &mut F,
    input: &mut S,
    out: &mut O,
) -> Ending
    requires settings { AreSettings settings.now }
    requires some { 1 ≤ rounds }
    requires few { rounds ≤ 32767 }
    requires there { table + 1 ≤ F.words files.old }
    requires few_words { F.words files.old < 2 ^ 32 }
    ensures cycles { (watch : Option (List Seen)) → CyclesFiles settings.now rounds table
        (world (F.words files.old) (F.told files.old) (F.faults files.old) (S.left input.old) (S.faults input.old) (O.held out.old) (O.faults out.old) watch)
        (world (F.words files.new) (F.told files.new) (F.faults files.new) (S.left input.new) (S.faults input.new) (O.held out.new) (O.faults out.new) watch)
        result }
    ensures leaves { Leaves result → (input.new ≡ input.old) × (out.new ≡ out.old) }
    ensures input { ((operands : List (List ℕ)) → AreFiles (F.told files.old) table (F.words files.old) operands → ⊥) → input.new ≡ input.old }
    ensures rose { FailsRisen result (S.faults input.old) (S.faults input.new) }
{
    let end = files.words();
    match read_operands(alloc, files, table, end) {
        Ok(operands) => {
            let mut operands = operands;
            cycle_operands(alloc, settings, rounds, &mut operands, input, out)
        }
        Err(ending) => ending,
    }
}
