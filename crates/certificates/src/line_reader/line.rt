//! What the lines of a certificate say, read.
ghost use Rattle.std.specs.Prelude.{◌++◌, IfOk, codes, if◌then◌else◌};
ghost use Rattle.certificates.specs.Finding.{Finds, FindsAs};
ghost use Rattle.certificates.specs.CertLines.{line_text, IsLineInRange};
ghost use Rattle.certificates.specs.Rests.{node_rest, IsNodeRest, loop_rest, IsLoopRest, IsFrame};

use crate::line_reader::kind::{bound, kind, version};
use crate::line_reader::members::members;
use crate::line_reader::number::{method, number, place, potential};
use crate::line_reader::part::{cut, first_part};
use crate::{CertLine, LoopLine};
use base::NoMemory;
use std::alloc::Global;

/// What the line says, if it is one of a certificate.
pub fn read_line(alloc: Global, line: &[u8]) -> Result<Option<CertLine>, NoMemory>
    ensures { IfOk result (Finds line_text IsLineInRange line.now) }
{
    if let Some(rest) = line.strip_prefix(b"node ") {
        return Ok(node_line(rest));
    }
    if let Some(rest) = line.strip_prefix(b"raise ") {
        return Ok(raise_line(rest));
    }
    if let Some(rest) = line.strip_prefix(b"loop ") {
        return loop_line(alloc, rest, false);
    }
    if let Some(rest) = line.strip_prefix(b"region ") {
        return loop_line(alloc, rest, true);
    }
    Ok(read_frame(line))
}

/// What the line says, if it is one of a certificate, and none of a node or a loop.
fn read_frame(line: &[u8]) -> Option<CertLine>
    ensures { Finds line_text (λ said. IsLineInRange said × IsFrame said) line.now result }
{
    if let Some(rest) = line.strip_prefix(b"section ") {
        return section_line(rest);
    }
    if let Some(rest) = line.strip_prefix(b"JOPC ") {
        return version_line(rest);
    }
    if let Some(rest) = line.strip_prefix(b"root ") {
        return root_line(rest);
    }
    if let Some(rest) = line.strip_prefix(b"bound ") {
        return bound_line(rest);
    }
    None
}

fn version_line(rest: &[u8]) -> Option<CertLine>
    ensures { Finds line_text IsLineInRange (codes "JOPC " ++ rest.now) result }
{
    Some(CertLine::Version(version(rest)?))
}

fn root_line(rest: &[u8]) -> Option<CertLine>
    ensures { Finds line_text IsLineInRange (codes "root " ++ rest.now) result }
{
    Some(CertLine::Root(method(rest)?))
}

fn section_line(rest: &[u8]) -> Option<CertLine>
    ensures { Finds line_text IsLineInRange (codes "section " ++ rest.now) result }
{
    let (word, number) = cut(rest)?;
    Some(CertLine::Start(kind(word)?, method(number)?))
}

fn node_line(rest: &[u8]) -> Option<CertLine>
    ensures { Finds line_text IsLineInRange (codes "node " ++ rest.now) result }
{
    let (place, potential) = potential_at(rest)?;
    Some(CertLine::Node(2 * place, potential))
}

fn raise_line(rest: &[u8]) -> Option<CertLine>
    ensures { Finds line_text IsLineInRange (codes "raise " ++ rest.now) result }
{
    let (place, potential) = potential_at(rest)?;
    Some(CertLine::Node(2 * place + 1, potential))
}

/// The place and the potential that the text is, if it is these.
fn potential_at(text: &[u8]) -> Option<(u32, i128)>
    ensures { Finds node_rest IsNodeRest text.now result }
{
    let (number, sum) = cut(text)?;
    Some((place(number)?, potential(sum)?))
}

fn loop_line(alloc: Global, rest: &[u8], region: bool) -> Result<Option<CertLine>, NoMemory>
    ensures { IfOk result (Finds line_text IsLineInRange ((if region then codes "region " else codes "loop ") ++ rest.now)) }
{
    let Some((header, cost, text)) = loop_parts(rest) else {
        return Ok(None);
    };
    let Some(members) = members(alloc, text)? else {
        return Ok(None);
    };
    let line = LoopLine::new(region, 2 * header, cost, members);
    Ok(Some(CertLine::Loop(line)))
}

/// The place of the header, the cost of an iteration and the text of the members that the text is, if
/// it begins with the first two.
fn loop_parts(text: &[u8]) -> Option<(u32, u64, &[u8])>
    ensures { FindsAs (λ x. (x.0, x.1, x.2.now)) loop_rest IsLoopRest text.now result }
{
    let Some((header, rest)) = cut(text) else {
        return None;
    };
    let (cost, members) = first_part(rest);
    let Some(header) = place(header) else {
        return None;
    };
    let Some(cost) = number(cost) else {
        return None;
    };
    Some((header, cost, members))
}

fn bound_line(rest: &[u8]) -> Option<CertLine>
    ensures { Finds line_text IsLineInRange (codes "bound " ++ rest.now) result }
{
    Some(CertLine::Bound(bound(rest)?))
}
