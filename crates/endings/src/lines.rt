//! The line of each ending, on err. No memory is taken.
ghost use Rattle.std.specs.Prelude.{◌≡◌, false};
ghost use Rattle.std.specs.List.{concat};
ghost use Rattle.outside.specs.Outside.{HasCause};
ghost use Rattle.answer_lines.specs.Said as lines;
ghost use Rattle.command_line.specs.Command.{texts};
ghost use Rattle.endings.specs.Line.{text_of_word, kind_name, link_parts, too_long_parts, is_memory, line_of, is_fault};

use crate::outcome::{AsmRefusal, Ending, Refusal};
use answer_lines::{
    AsmLine, Line, LinkLine, say, say_bad_bounds, say_bad_cert, say_bad_facts, say_bad_lines,
    say_bad_sizes, say_bad_table, say_fault, say_held, say_no_fact, say_price_fault,
    say_slot_count, say_twice_bound, say_twice_fact, say_twice_lines, say_twice_size,
    say_unanswered,
};
use jopizer::LinkRefusal;
use microcode_asm::AsmKind;
use outside::{Failed, Sink};
use refusal_lines::{say_failure, say_limit};

/// The text of a word, and an empty one where there is no such word.
pub fn text_of<'a>(words: &[&'a str], k: u32) -> &'a [u8]
    ensures { result.now ≡ text_of_word (texts words.now) k }
{
    match words.get(k as usize) {
        Some(word) => word.as_bytes(),
        None => b"",
    }
}

/// Puts the line of an ending, if it has one, whose command's words these were.
pub fn say_ending<O: Sink>(sink: &mut O, words: &[&str], ending: &Ending) -> Result<(), Failed>
    ensures said { lines.Said (is_fault ending.now) (line_of (texts words.now) ending.now) (O.held sink.old) (O.held sink.new) (O.faults sink.old)
        (O.faults sink.new) result }
    ensures cause { HasCause (O.faults sink.old) (O.faults sink.new) result }
{
    match ending {
        Ending::Ended(counts) => say(sink, &Line::Ended(*counts)),
        Ending::Written => Ok(()),
        Ending::Linked(sizes) => say(sink, &Line::Linked(*sizes)),
        Ending::Holds(held) => say_held(sink, &held.name, held.bound),
        Ending::Spent(counts) => say(sink, &Line::Spent(*counts)),
        Ending::Uncaught(_, name, counts) => say(sink, &Line::Uncaught(name, *counts)),
        Ending::CycleEnded(slots) => say(sink, &Line::CycleEnded(*slots)),
        Ending::CycleUncaught(_, name, slots) => say(sink, &Line::CycleUncaught(name, *slots)),
        Ending::CycleSpent(slots) => say(sink, &Line::CycleSpent(*slots)),
        Ending::Refused(refusal) => say_refusal(sink, words, *refusal),
        Ending::TooLong(_, name, blocks, limit) => say_too_long(sink, name, *blocks, *limit),
        Ending::NotLinked(refusal, name) => say_link_refusal(sink, *refusal, name),
        Ending::NotHeld(fault, name) => say_fault(sink, *fault, name),
        Ending::NotPriced(_, node, name) => say_price_fault(sink, name, *node),
        Ending::NotAnswered(cause, subject) => say_unanswered(sink, *cause, subject),
        Ending::ReadFault | Ending::InputFault => say(sink, &Line::ReadFault),
        Ending::WriteFault => say(sink, &Line::WriteFault),
        Ending::NoMemory => say(sink, &Line::NoMemory),
    }
}

fn say_refusal<O: Sink>(sink: &mut O, words: &[&str], refusal: Refusal) -> Result<(), Failed>
    ensures said { lines.Said (is_fault (Ending.Refused refusal)) (line_of (texts words.now) (Ending.Refused refusal)) (O.held sink.old) (O.held sink.new)
        (O.faults sink.old) (O.faults sink.new) result }
    ensures cause { HasCause (O.faults sink.old) (O.faults sink.new) result }
{
    match refusal {
        Refusal::Usage(k) => say(sink, &Line::Usage(k)),
        Refusal::TooBig(k, sum) => say(sink, &Line::TooBig(text_of(words, k), sum)),
        Refusal::BadImage => say(sink, &Line::BadImage),
        Refusal::Differs(word, kept, linked) => say(sink, &Line::Differs { word, kept, linked }),
        Refusal::MethodTooLong(_, blocks, limit) => say_too_long(sink, b"boot", blocks, limit),
        Refusal::MemoryTooSmall(words, given) => {
            say(sink, &Line::MemoryTooSmall { words, given })
        }
        Refusal::NoCircuit => say(sink, &Line::NoCircuit),
        Refusal::Asm(AsmRefusal::Line(number, kind)) => {
            say(sink, &Line::Asm(AsmLine::Broken(number, kind_name(kind))))
        }
        Refusal::Asm(AsmRefusal::TooLong(words)) => {
            say(sink, &Line::Asm(AsmLine::TooLong(words)))
        }
        Refusal::BadBounds(line) => say_bad_bounds(sink, line),
        Refusal::TwiceBound(line) => say_twice_bound(sink, line),
        Refusal::BadSizes(line) => say_bad_sizes(sink, line),
        Refusal::TwiceSize(line) => say_twice_size(sink, line),
        Refusal::BadLines(line) => say_bad_lines(sink, line),
        Refusal::TwiceLines(line) => say_twice_lines(sink, line),
        Refusal::BadFacts(line) => say_bad_facts(sink, line),
        Refusal::TwiceFact(line) => say_twice_fact(sink, line),
        Refusal::NoFact(line) => say_no_fact(sink, line),
        Refusal::BadTable(line) => say_bad_table(sink, line),
        Refusal::SlotCount(count) => say_slot_count(sink, count),
        Refusal::BadCert(line) => say_bad_cert(sink, line),
        Refusal::Check(_)
        | Refusal::Price(_, _)
        | Refusal::Bound(_)
        | Refusal::Memory(_)
        | Refusal::NoLoop
        | Refusal::Plan(_)
        | Refusal::Link(_) => Ok(()),
    }
}

fn say_too_long<O: Sink>(sink: &mut O, name: &[u8], blocks: u32, limit: u32) -> Result<(), Failed>
    ensures said { lines.Said false (concat (too_long_parts name.now blocks limit)) (O.held sink.old) (O.held sink.new) (O.faults sink.old)
        (O.faults sink.new) result }
    ensures cause { HasCause (O.faults sink.old) (O.faults sink.new) result }
{
    let line = Line::MethodTooLong {
        name,
        blocks,
        limit,
    };
    say(sink, &line)
}

fn say_link_refusal<O: Sink>(sink: &mut O, refusal: LinkRefusal, name: &[u8]) -> Result<(), Failed>
    ensures said { lines.Said (is_memory refusal) (concat (link_parts refusal name.now)) (O.held sink.old) (O.held sink.new) (O.faults sink.old)
        (O.faults sink.new) result }
    ensures cause { HasCause (O.faults sink.old) (O.faults sink.new) result }
{
    match refusal {
        LinkRefusal::Resolving(refusal) => refusal_lines::say_refusal(sink, refusal, name),
        LinkRefusal::NotVerified(file, method, pc, rule) => {
            say_failure(sink, file, method, pc, rule)
        }
        LinkRefusal::TooLarge(what, count, limit) => say_limit(sink, what, count, limit),
        LinkRefusal::FileTooLarge(count, limit) => say(
            sink,
            &Line::Link(LinkLine::TooLarge(b"ImageBytes", count, limit)),
        ),
        LinkRefusal::NoMemory => Ok(()),
    }
}

/// The name of a rule of microprograms.
fn kind_name(kind: AsmKind) -> &'static [u8]
    ensures { result.now ≡ kind_name kind }
{
    match kind {
        AsmKind::Form => b"Form",
        AsmKind::NoLabel => b"NoLabel",
        AsmKind::LabelTwice => b"LabelTwice",
        AsmKind::EntryTwice => b"EntryTwice",
        AsmKind::ConstTwice => b"ConstTwice",
        AsmKind::NoTurns => b"NoTurns",
    }
}
