//! The lines of refusals, put into a sink.
ghost use Rattle.std.specs.Prelude.{◌≡◌, [], false};
ghost use Rattle.std.specs.List.{concat};
ghost use Rattle.outside.specs.Outside.{HasCause};
ghost use Rattle.answer_lines.specs.Said.{Said};
ghost use Rattle.refusal_lines.specs.Lines.{place_of, refusal_parts, is_want_of_memory, failure_parts, limit_parts};

use crate::names::{item_name, limit_name, rule_name, why_name};
use answer_lines::{Line, LinkLine, Named, Place, say};
use bytecode_verifier::MethodRule;
use image_builder::Counted;
use outside::{Failed, Sink};
use program_resolution::ProgramRefusal;
use program_tables::{Item, Site, Why};

fn place_of(site: Site) -> Place
    ensures { result ≡ place_of site }
{
    match site {
        Site::Field(field) => Place::Field(field),
        Site::Method(method) => Place::Method(method),
        Site::Code(method, pc) => Place::Code(method, pc),
    }
}

fn say_item<O: Sink>(sink: &mut O, file: u32, site: Site, item: Item) -> Result<(), Failed>
    ensures said { Said false (concat (refusal_parts (ProgramRefusal.Unsupported file site item) [])) (O.held sink.old) (O.held sink.new) (O.faults sink.old)
        (O.faults sink.new) result }
    ensures cause { HasCause (O.faults sink.old) (O.faults sink.new) result }
{
    let place = place_of(site);
    let item = item_name(item).as_bytes();
    say(sink, &Line::Link(LinkLine::Unsupported(file, place, item)))
}

fn say_entry<O: Sink>(
    sink: &mut O,
    file: u32,
    entry: u32,
    why: Why,
    name: &[u8],
) -> Result<(), Failed>
    ensures said { Said false (concat (refusal_parts (ProgramRefusal.Unresolved file entry why) name.now)) (O.held sink.old) (O.held sink.new)
        (O.faults sink.old) (O.faults sink.new) result }
    ensures cause { HasCause (O.faults sink.old) (O.faults sink.new) result }
{
    let why = why_name(why).as_bytes();
    say(
        sink,
        &Line::Link(LinkLine::Unresolved(file, entry, why, Named::Class(name))),
    )
}

/// Puts the line of why files are no program, with what it names in them.
pub fn say_refusal<O: Sink>(
    sink: &mut O,
    refusal: ProgramRefusal,
    name: &[u8],
) -> Result<(), Failed>
    ensures said { Said (is_want_of_memory refusal) (concat (refusal_parts refusal name.now)) (O.held sink.old) (O.held sink.new) (O.faults sink.old)
        (O.faults sink.new) result }
    ensures cause { HasCause (O.faults sink.old) (O.faults sink.new) result }
{
    match refusal {
        ProgramRefusal::BadClass(file) => say(sink, &Line::Link(LinkLine::BadClass(file))),
        ProgramRefusal::UnsupportedVersion(file, major) => {
            say(sink, &Line::Link(LinkLine::UnsupportedVersion(file, major)))
        }
        ProgramRefusal::Duplicate(file, _) => say(
            sink,
            &Line::Link(LinkLine::Duplicate(file, name)),
        ),
        ProgramRefusal::Unsupported(file, site, item) => say_item(sink, file, site, item),
        ProgramRefusal::Unresolved(file, entry, why) => say_entry(sink, file, entry, why, name),
        ProgramRefusal::BadHierarchy(file) => say(sink, &Line::Link(LinkLine::BadHierarchy(file))),
        ProgramRefusal::NoMain => say(sink, &Line::Link(LinkLine::NoMain)),
        ProgramRefusal::TooManyClasses(count, limit) => say(
            sink,
            &Line::Link(LinkLine::TooLarge(b"Classes", count as u64, limit as u64)),
        ),
        ProgramRefusal::NoMemory => say(sink, &Line::NoMemory),
    }
}

/// Puts the line of the rule of the verifier that fails first, in this method of the file at this place of its code.
pub fn say_failure<O: Sink>(
    sink: &mut O,
    file: u32,
    method: u32,
    pc: u32,
    rule: MethodRule,
) -> Result<(), Failed>
    ensures said { Said false (concat (failure_parts file method pc rule)) (O.held sink.old) (O.held sink.new) (O.faults sink.old) (O.faults sink.new) result }
    ensures cause { HasCause (O.faults sink.old) (O.faults sink.new) result }
{
    let rule = rule_name(rule).as_bytes();
    say(
        sink,
        &Line::Link(LinkLine::NotVerified(file, method, pc, rule)),
    )
}

/// Puts the line of the first limit that an image passes.
pub fn say_limit<O: Sink>(sink: &mut O, what: Counted, count: u64, limit: u64) -> Result<(), Failed>
    ensures said { Said false (concat (limit_parts what count limit)) (O.held sink.old) (O.held sink.new) (O.faults sink.old) (O.faults sink.new) result }
    ensures cause { HasCause (O.faults sink.old) (O.faults sink.new) result }
{
    let what = limit_name(what).as_bytes();
    say(sink, &Line::Link(LinkLine::TooLarge(what, count, limit)))
}
