//! Certificates written as texts.
ghost use Rattle.std.specs.Prelude.{◌≡◌, ◌++◌, ◌∷◌, [], All, IfOk, OnOk, codes, decimal, flat_map};
ghost use Rattle.std.specs.Fmt.{signed_decimal};
ghost use Rattle.section_check.specs.Section.{IsPotential, ArePotentials};
ghost use Rattle.certificates.specs.CertLines.{behind_space, node_text, members_text, kind_text};
ghost use Rattle.certificates.specs.declared.lines.line.CertLine.TheVariants.{Version, Root, Start, Node, Loop, Bound};
ghost use Rattle.certificates.specs.Certificate.{IsInGrammar};
ghost use Rattle.certificates.specs.Texts.{loop_said, text_of};
ghost use Rattle.certificates.specs.Written.{fed, node_fed, loop_fed, section_fed};

use crate::SectionKind;
use crate::cert::{Cert, CertSection};
use ascii_text::put_u64;
use base::NoMemory;
use section_check::section::CertLoop;
use std::alloc::Global;

/// The text of a certificate.
pub fn write_cert(alloc: Global, c: &Cert) -> Result<Vec<u8>, NoMemory>
    requires { IsInGrammar c.now }
    ensures { IfOk result (λ text. text.items ≡ text_of c.now) }
{
    let mut out = Vec::new(alloc);
    put_line(&mut out, b"JOPC ", u64::from(c.version()))?;
    put_line(&mut out, b"root ", u64::from(c.root()))?;
    put_sections(&mut out, c.sections())?;
    put_bound(&mut out, c.bound())?;
    Ok(out)
}

/// Appends a text and a number behind it.
fn put_number(out: &mut Vec<u8>, text: &[u8], number: u64) -> Result<(), NoMemory>
    ensures { OnOk result (out.new.items ≡ out.old.items ++ (text.now ++ decimal number)) }
{
    out.extend_from_slice(text)?;
    put_u64(out, number)
}

/// Appends a line of a text and a number behind it.
fn put_line(out: &mut Vec<u8>, text: &[u8], number: u64) -> Result<(), NoMemory>
    ensures { OnOk result (out.new.items ≡ out.old.items ++ ((text.now ++ decimal number) ++ 10 ∷ [])) }
{
    put_number(out, text, number)?;
    out.push(b'\n')?;
    Ok(())
}

/// Appends the lines of sections.
fn put_sections(out: &mut Vec<u8>, sections: &[CertSection]) -> Result<(), NoMemory>
    requires { All (λ s. ArePotentials s.section.nodes) sections.now }
    ensures { OnOk result (out.new.items ≡ out.old.items ++ flat_map section_fed sections.now) }
{
    for s in sections {
        put_section(out, s)?;
    }
    Ok(())
}

/// Appends the lines of a section.
fn put_section(out: &mut Vec<u8>, s: &CertSection) -> Result<(), NoMemory>
    requires { ArePotentials s.now.section.nodes }
    ensures { OnOk result (out.new.items ≡ out.old.items ++ section_fed s.now) }
{
    put_start(out, s.kind, s.method)?;
    put_nodes(out, s.section.nodes())?;
    put_loops(out, s.section.loops())
}

/// Appends the line with which a section begins.
fn put_start(out: &mut Vec<u8>, kind: SectionKind, method: u32) -> Result<(), NoMemory>
    ensures { OnOk result (out.new.items ≡ out.old.items ++ fed (Start kind method)) }
{
    out.extend_from_slice(b"section ")?;
    out.extend_from_slice(kind_name(kind))?;
    put_line(out, b" ", u64::from(method))
}

/// The word for a kind.
fn kind_name(kind: SectionKind) -> &'static [u8]
    ensures { result.now ≡ kind_text kind }
{
    match kind {
        SectionKind::Inside => b"inside",
        SectionKind::Alone => b"alone",
        SectionKind::Loops => b"loops",
    }
}

/// Appends the lines of nodes.
fn put_nodes(out: &mut Vec<u8>, nodes: &[(u32, i128)]) -> Result<(), NoMemory>
    requires { ArePotentials nodes.now }
    ensures { OnOk result (out.new.items ≡ out.old.items ++ flat_map node_fed nodes.now) }
{
    for node in nodes {
        put_node(out, node.0, node.1)?;
    }
    Ok(())
}

/// Appends the line of a node.
fn put_node(out: &mut Vec<u8>, u: u32, potential: i128) -> Result<(), NoMemory>
    requires { IsPotential potential }
    ensures { OnOk result (out.new.items ≡ out.old.items ++ fed (Node u potential)) }
{
    if u % 2 == 1 {
        put_number(out, b"raise ", u64::from(u / 2))?;
    } else {
        put_number(out, b"node ", u64::from(u / 2))?;
    }
    put_potential(out, potential)
}

/// Appends a space, a potential and a line feed.
fn put_potential(out: &mut Vec<u8>, potential: i128) -> Result<(), NoMemory>
    requires { IsPotential potential }
    ensures { OnOk result (out.new.items ≡ out.old.items ++ (behind_space (signed_decimal potential) ++ 10 ∷ [])) }
{
    if potential < 0 {
        put_line(out, b" -", potential.unsigned_abs() as u64)
    } else {
        put_line(out, b" ", potential.unsigned_abs() as u64)
    }
}

/// Appends the lines of loops.
fn put_loops(out: &mut Vec<u8>, loops: &[CertLoop]) -> Result<(), NoMemory>
    ensures { OnOk result (out.new.items ≡ out.old.items ++ flat_map loop_fed loops.now) }
{
    for found in loops {
        put_loop(out, found)?;
    }
    Ok(())
}

/// Appends the line of a loop.
fn put_loop(out: &mut Vec<u8>, found: &CertLoop) -> Result<(), NoMemory>
    ensures { OnOk result (out.new.items ≡ out.old.items ++ fed (Loop (loop_said found.now))) }
{
    if found.region() {
        put_number(out, b"region ", u64::from(found.header() / 2))?;
    } else {
        put_number(out, b"loop ", u64::from(found.header() / 2))?;
    }
    put_number(out, b" ", found.iteration_cost())?;
    put_members(out, found.members())?;
    out.push(b'\n')?;
    Ok(())
}

/// Appends the members of a loop, each behind a space.
fn put_members(out: &mut Vec<u8>, members: &[u32]) -> Result<(), NoMemory>
    ensures { OnOk result (out.new.items ≡ out.old.items ++ members_text members.now) }
{
    for u in members {
        put_member(out, *u)?;
    }
    Ok(())
}

/// Appends a space and a node.
fn put_member(out: &mut Vec<u8>, u: u32) -> Result<(), NoMemory>
    ensures { OnOk result (out.new.items ≡ out.old.items ++ behind_space (node_text u)) }
{
    put_number(out, b" ", u64::from(u / 2))?;
    if u % 2 == 1 {
        out.push(b'r')?;
    }
    Ok(())
}

/// Appends the last line.
fn put_bound(out: &mut Vec<u8>, bound: Option<u64>) -> Result<(), NoMemory>
    ensures { OnOk result (out.new.items ≡ out.old.items ++ fed (Bound bound)) }
{
    match bound {
        Some(number) => put_line(out, b"bound ", number),
        None => Ok(out.extend_from_slice(b"bound never\n")?),
    }
}
