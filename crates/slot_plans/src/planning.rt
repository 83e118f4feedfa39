//! The plan of a cyclic executive: the bound of each slot's method beside the slot's length.
ghost use Rattle.std.specs.Prelude.{◌≡◌, ◌+◌, ◌≤◌, ◌<◌, ◌^◌, ℕ, List, Option, All, length};
ghost use Rattle.base.specs.Sizes.{longest_file};
ghost use Rattle.device_traits.specs.declared.seen.Seen.{Seen};
ghost use Rattle.outside.specs.Files.{contents};
ghost use Rattle.command_line.specs.Range.{AreSettings};
ghost use Rattle.endings.specs.Line.{text_of_word};
ghost use Rattle.endings.specs.World.{world};
ghost use Rattle.endings.specs.Leaving.{Leaves};
ghost use Rattle.slot_table.specs.Grammar.{IsTableRead};
ghost use Rattle.slot_plans.specs.Planning.{plan_ending, AnswersPlan, Plans, PlansFiles};

use crate::plan::{NotPlanned, plan_lines};
use answer_lines::Cause;
use command_line::Settings;
use endings::executive::{link_behind, table_ending};
use endings::faults::fault_ending;
use endings::linking::read_operands;
use endings::operands::{operand, operand_text};
use endings::outcome::{Answer, Ending};
use endings::putting::put_answer;
use jopizer::Linked;
use outside::{Files, Sink};
use slot_table::{SlotTable, read_table};
use std::alloc::Global;

/// The ending that says why there is no plan.
fn plan_ending(settings: &Settings, cause: NotPlanned) -> Ending
    ensures { result ≡ plan_ending settings.now cause }
{
    match cause {
        NotPlanned::NoAnalysis(fault) => fault_ending(settings, fault),
        NotPlanned::Refused(cause, subject) => Ending::NotAnswered(Cause::Plan(cause), subject),
        NotPlanned::NoMemory => Ending::NoMemory,
    }
}

/// The plan of what was linked with the executive of the table, or why there is none.
fn plan_linked(
    alloc: Global,
    linked: &Linked,
    settings: &Settings,
    table: &SlotTable,
    bounds: &[u8],
) -> Answer
    requires settings { AreSettings settings.now }
    requires short { length bounds.now ≤ longest_file }
    ensures { AnswersPlan linked.now.classes settings.now table.now bounds.now result }
{
    match plan_lines(alloc, linked.program(), settings, table, bounds) {
        Ok(text) => Answer::Text(text),
        Err(cause) => Answer::Ends(plan_ending(settings, cause)),
    }
}

/// The plan of the table that the first operand gives.
fn plan_table(
    alloc: Global,
    settings: &Settings,
    rounds: u32,
    operands: &mut Vec<Vec<u8>>,
    table: &SlotTable,
) -> Answer
    requires settings { AreSettings settings.now }
    requires some { 1 ≤ rounds }
    requires few { rounds ≤ 32767 }
    requires there { 2 ≤ length operands.old.items }
    requires few_files { length operands.old.items < 2 ^ 32 }
    requires short { All (λ text. length text.items ≤ longest_file) operands.old.items }
    requires read { IsTableRead (text_of_word (contents operands.old.items) 0) table.now }
    ensures { Plans settings.now rounds (contents operands.old.items) result }
{
    match link_behind(alloc, operands, 2, table, rounds) {
        Ok(linked) => {
            let bounds = operand_text(operands, 1);
            let answer = plan_linked(alloc, &linked, settings, table, bounds);
            // By a call: what its parts' destructors do is proved there.
            drop(linked);
            answer
        }
        Err(ending) => Answer::Ends(ending),
    }
}

/// The plan of operands: the table, the bounds of loops, and the class files.
fn plan_operands(
    alloc: Global,
    settings: &Settings,
    rounds: u32,
    operands: &mut Vec<Vec<u8>>,
) -> Answer
    requires settings { AreSettings settings.now }
    requires some { 1 ≤ rounds }
    requires few { rounds ≤ 32767 }
    requires there { 2 ≤ length operands.old.items }
    requires few_files { length operands.old.items < 2 ^ 32 }
    requires short { All (λ text. length text.items ≤ longest_file) operands.old.items }
    ensures { Plans settings.now rounds (contents operands.old.items) result }
{
    match read_table(alloc, operand(operands, 0)) {
        Ok(table) => plan_table(alloc, settings, rounds, operands, &table),
        Err(fault) => Answer::Ends(table_ending(fault)),
    }
}

/// Plans the table of a word, by the bounds and the class files of the words behind it, and puts what answers.
pub fn plan_files<F: Files, O: Sink>(
    alloc: Global,
    settings: &Settings,
    rounds: u32,
    table: u32,
    files: &mut F,
    out: &mut O,
) -> Ending
    requires settings { AreSettings settings.now }
    requires some { 1 ≤ rounds }
    requires few { rounds ≤ 32767 }
    requires there { table + 2 ≤ F.words files.old }
    requires few_words { F.words files.old < 2 ^ 32 }
    ensures plans { (left : Option (List ℕ)) (read_faults : ℕ) (watch : Option (List Seen)) → PlansFiles settings.now rounds table
        (world (F.words files.old) (F.told files.old) (F.faults files.old) left read_faults (O.held out.old) (O.faults out.old) watch)
        (world (F.words files.new) (F.told files.new) (F.faults files.new) left read_faults (O.held out.new) (O.faults out.new) watch) result }
    ensures leaves { Leaves result → out.new ≡ out.old }
{
    let end = files.words();
    match read_operands(alloc, files, table, end) {
        Ok(operands) => {
            let mut operands = operands;
            put_answer(plan_operands(alloc, settings, rounds, &mut operands), out)
        }
        Err(ending) => ending,
    }
}
