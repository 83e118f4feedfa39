//! The lines of refusals of linking.
ghost use Rattle.std.specs.List.{concat};
ghost use Rattle.outside.specs.Outside.{HasCause};
ghost use Rattle.std.specs.Prelude.{[], ◌∷◌, ◌++◌, codes, decimal};
ghost use Rattle.answer_lines.specs.Line.{link_parts, place_parts, named_parts};
ghost use Rattle.answer_lines.specs.Put.{PutLine};

use crate::line::{LinkLine, Named, Place};
use crate::pieces::{Piece, put_pieces};
use outside::{Failed, Sink};

/// Puts the line of a refusal of linking.
pub(crate) fn put_link_line<O: Sink>(sink: &mut O, line: &LinkLine<'_>) -> Result<(), Failed>
    ensures put { PutLine (O.held sink.old) (O.held sink.new) (concat (link_parts line.now)) result }
    ensures cause { HasCause (O.faults sink.old) (O.faults sink.new) result }
{
    match *line {
        LinkLine::BadClass(file) => put_file(sink, b"link: bad class file=", file),
        LinkLine::BadHierarchy(file) => put_file(sink, b"link: bad hierarchy file=", file),
        LinkLine::NoMain => put_pieces(sink, &[Piece::Text(b"link: no main\n")]),
        LinkLine::UnsupportedVersion(file, major) => put_version(sink, file, major),
        LinkLine::Duplicate(file, name) => put_duplicate(sink, file, name),
        LinkLine::Unsupported(file, place, item) => put_unsupported(sink, file, place, item),
        LinkLine::Unresolved(file, entry, why, name) => {
            put_unresolved(sink, file, entry, why, &name)
        }
        LinkLine::NotVerified(file, method, pc, rule) => {
            put_not_verified(sink, file, method, pc, rule)
        }
        LinkLine::TooLarge(what, count, limit) => put_too_large(sink, what, count, limit),
    }
}

/// Puts a line that ends with the number of a file.
fn put_file<O: Sink>(sink: &mut O, label: &[u8], file: u32) -> Result<(), Failed>
    ensures put { PutLine (O.held sink.old) (O.held sink.new) (concat (label.now ∷ decimal file ∷ codes "\n" ∷ [])) result }
    ensures cause { HasCause (O.faults sink.old) (O.faults sink.new) result }
{
    let file = Piece::Number(file as u128);
    put_pieces(sink, &[Piece::Text(label), file, Piece::Text(b"\n")])
}

fn put_version<O: Sink>(sink: &mut O, file: u32, major: u16) -> Result<(), Failed>
    ensures put { PutLine (O.held sink.old) (O.held sink.new) (concat (link_parts (LinkLine.UnsupportedVersion file major))) result }
    ensures cause { HasCause (O.faults sink.old) (O.faults sink.new) result }
{
    put_pieces(
        sink,
        &[
            Piece::Text(b"link: unsupported version file="),
            Piece::Number(file as u128),
            Piece::Text(b" major="),
            Piece::Number(major as u128),
            Piece::Text(b"\n"),
        ],
    )
}

fn put_duplicate<O: Sink>(sink: &mut O, file: u32, name: &[u8]) -> Result<(), Failed>
    ensures put { PutLine (O.held sink.old) (O.held sink.new)
        (concat (codes "link: duplicate file=" ∷ decimal file ∷ codes " name=" ∷ name.now ∷ codes "\n" ∷ [])) result }
    ensures cause { HasCause (O.faults sink.old) (O.faults sink.new) result }
{
    put_pieces(
        sink,
        &[
            Piece::Text(b"link: duplicate file="),
            Piece::Number(file as u128),
            Piece::Text(b" name="),
            Piece::Text(name),
            Piece::Text(b"\n"),
        ],
    )
}

fn put_unsupported<O: Sink>(
    sink: &mut O,
    file: u32,
    place: Place,
    item: &[u8],
) -> Result<(), Failed>
    ensures put { PutLine (O.held sink.old) (O.held sink.new)
        (concat (codes "link: unsupported file=" ∷ decimal file ∷ (place_parts place ++ codes " item=" ∷ item.now ∷ codes "\n" ∷ []))) result }
    ensures cause { HasCause (O.faults sink.old) (O.faults sink.new) result }
{
    let head = Piece::Text(b"link: unsupported file=");
    let file = Piece::Number(file as u128);
    let label = Piece::Text(b" item=");
    let item = Piece::Text(item);
    let end = Piece::Text(b"\n");
    match place {
        Place::Class => put_pieces(sink, &[head, file, label, item, end]),
        Place::Field(i) => {
            let i = Piece::Number(i as u128);
            put_pieces(
                sink,
                &[head, file, Piece::Text(b" field="), i, label, item, end],
            )
        }
        Place::Method(i) => {
            let i = Piece::Number(i as u128);
            put_pieces(
                sink,
                &[head, file, Piece::Text(b" method="), i, label, item, end],
            )
        }
        Place::Code(i, pc) => {
            let i = Piece::Number(i as u128);
            let pc = Piece::Number(pc as u128);
            let method = Piece::Text(b" method=");
            put_pieces(
                sink,
                &[
                    head,
                    file,
                    method,
                    i,
                    Piece::Text(b" pc="),
                    pc,
                    label,
                    item,
                    end,
                ],
            )
        }
    }
}

fn put_unresolved<'a, O: Sink>(
    sink: &mut O,
    file: u32,
    entry: u32,
    why: &'a [u8],
    name: &Named<'a>,
) -> Result<(), Failed>
    ensures put { PutLine (O.held sink.old) (O.held sink.new)
        (concat (codes "link: unresolved file=" ∷ decimal file ∷ codes " entry=" ∷ decimal entry ∷ codes " why=" ∷ why.now ∷ codes " name="
        ∷ (named_parts name.now ++ codes "\n" ∷ []))) result }
    ensures cause { HasCause (O.faults sink.old) (O.faults sink.new) result }
{
    let head = Piece::Text(b"link: unresolved file=");
    let file = Piece::Number(file as u128);
    let entry = Piece::Number(entry as u128);
    let second = Piece::Text(b" entry=");
    let third = Piece::Text(b" why=");
    let why = Piece::Text(why);
    let last = Piece::Text(b" name=");
    let end = Piece::Text(b"\n");
    match *name {
        Named::Class(class) => put_pieces(
            sink,
            &[
                head,
                file,
                second,
                entry,
                third,
                why,
                last,
                Piece::Text(class),
                end,
            ],
        ),
        Named::Member(class, name, descriptor) => put_pieces(
            sink,
            &[
                head,
                file,
                second,
                entry,
                third,
                why,
                last,
                Piece::Text(class),
                Piece::Text(b"."),
                Piece::Text(name),
                Piece::Text(descriptor),
                end,
            ],
        ),
    }
}

fn put_not_verified<O: Sink>(
    sink: &mut O,
    file: u32,
    method: u32,
    pc: u32,
    rule: &[u8],
) -> Result<(), Failed>
    ensures put { PutLine (O.held sink.old) (O.held sink.new)
        (concat (codes "link: not verified file=" ∷ decimal file ∷ codes " method=" ∷ decimal method ∷ codes " pc=" ∷ decimal pc ∷ codes " rule=" ∷ rule.now
        ∷ codes "\n" ∷ [])) result }
    ensures cause { HasCause (O.faults sink.old) (O.faults sink.new) result }
{
    put_pieces(
        sink,
        &[
            Piece::Text(b"link: not verified file="),
            Piece::Number(file as u128),
            Piece::Text(b" method="),
            Piece::Number(method as u128),
            Piece::Text(b" pc="),
            Piece::Number(pc as u128),
            Piece::Text(b" rule="),
            Piece::Text(rule),
            Piece::Text(b"\n"),
        ],
    )
}

fn put_too_large<O: Sink>(sink: &mut O, what: &[u8], count: u64, limit: u64) -> Result<(), Failed>
    ensures put { PutLine (O.held sink.old) (O.held sink.new)
        (concat (codes "link: too large " ∷ what.now ∷ codes " count=" ∷ decimal count ∷ codes " limit=" ∷ decimal limit ∷ codes "\n" ∷ [])) result }
    ensures cause { HasCause (O.faults sink.old) (O.faults sink.new) result }
{
    put_pieces(
        sink,
        &[
            Piece::Text(b"link: too large "),
            Piece::Text(what),
            Piece::Text(b" count="),
            Piece::Number(count as u128),
            Piece::Text(b" limit="),
            Piece::Number(limit as u128),
            Piece::Text(b"\n"),
        ],
    )
}
