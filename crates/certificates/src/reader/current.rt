//! The section to which the lines add that are read.

use crate::{CertSection, LoopLine, SectionKind};
use base::NoMemory;
use section_check::section::{CertLoop, Section};
use std::alloc::Global;
use std::marker::Model;

/// A section to which lines add. Contracts see it as the section.
#[derive(Drop)]
pub(crate) struct Current {
    kind: SectionKind,
    method: u32,
    nodes: Vec<(u32, i128)>,
    loops: Vec<CertLoop>,
}

impl Model for Current {
    ghost use Rattle.certificates.specs.declared.cert.CertSection.{CertSection};

    ghost Value = { CertSection };

    ghost view = { λ c. record { kind = c.kind; method = c.method; section = record { nodes = c.nodes.items; loops = c.loops.items } } };
}

impl Current {
    ghost use Rattle.std.specs.Prelude.{◌≡◌, ◌↔◌, map, IfOk, IsTrue, MatchBool, OnOk, Some};
    ghost use Rattle.certificates.specs.declared.lines.line.SectionKind.TheVariants.{Loops};
    ghost use Rattle.certificates.specs.Loop.{IsAbove, last_of};
    ghost use Rattle.section_check.specs.Section.{listed};
    ghost use Rattle.certificates.specs.Drafts.{empty_section, with_node, with_loop};
    ghost use Rattle.certificates.specs.Drafts.{TakesNode, TakesLoop};

    /// The section without nodes and loops.
    pub(crate) fn new(alloc: Global, kind: SectionKind, method: u32) -> Self
        ensures { result ≡ empty_section kind method }
    {
        Current {
            kind,
            method,
            nodes: Vec::new(alloc),
            loops: Vec::new(alloc),
        }
    }

    /// The section that was read.
    pub(crate) fn into_section(self) -> CertSection
        ensures { result ≡ self }
    {
        CertSection {
            kind: self.kind,
            method: self.method,
            section: Section::new(self.nodes, self.loops),
        }
    }

    /// Puts a node behind the others, if it may stand there.
    pub(crate) fn add_node(&mut self, u: u32, potential: i128) -> Result<bool, NoMemory>
        ensures { IfOk result (λ goes. MatchBool goes (TakesNode self.old u × (with_node u potential self.old ≡ Some self.new)) (¬ TakesNode self.old u)) }
    {
        if !self.loops.is_empty() {
            return Ok(false);
        }
        if !self.is_last_node_below(u) {
            return Ok(false);
        }
        self.nodes.push((u, potential))?;
        Ok(true)
    }

    /// Whether the node is above all others.
    fn is_last_node_below(&self, u: u32) -> bool
        ensures { IsTrue result ↔ IsAbove (last_of (listed self.now.section.nodes)) u }
    {
        match self.nodes.last() {
            Some((last, _)) => *last < u,
            None => true,
        }
    }

    /// Whether the node is above all headers.
    fn is_last_header_below(&self, u: u32) -> bool
        ensures { IsTrue result ↔ IsAbove (last_of (map (λ l. l.header) self.now.section.loops)) u }
    {
        match self.loops.last() {
            Some(last) => last.header() < u,
            None => true,
        }
    }

    /// Whether loops of the section may be regions.
    fn has_regions(&self) -> bool
        ensures { IsTrue result ↔ (self.now.kind ≡ Loops) }
    {
        match self.kind {
            SectionKind::Loops => true,
            SectionKind::Inside | SectionKind::Alone => false,
        }
    }

    /// Puts a loop behind the others, if it may stand there.
    pub(crate) fn add_loop(&mut self, line: LoopLine) -> Result<bool, NoMemory>
        ensures { IfOk result (λ goes. MatchBool goes (TakesLoop self.old line × (self.new ≡ with_loop line self.old)) (¬ TakesLoop self.old line)) }
    {
        if line.region() && !self.has_regions() {
            return Ok(false);
        }
        if !self.is_last_header_below(line.header()) {
            return Ok(false);
        }
        self.push_loop(line)?;
        Ok(true)
    }

    /// Puts a loop behind the others.
    fn push_loop(&mut self, line: LoopLine) -> Result<(), NoMemory>
        ensures { OnOk result (self.new ≡ with_loop line self.old) }
    {
        let (header, cost, region) = (line.header(), line.cost(), line.region());
        let members = line.into_members();
        self.loops
            .push(CertLoop::new(header, cost, members, region))?;
        Ok(())
    }
}
