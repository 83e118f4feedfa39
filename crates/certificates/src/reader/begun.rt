//! The sections of a certificate as they are read.
ghost use Rattle.std.specs.Prelude.{◌≡◌, ◌↔◌, [], None, IfOk, OnOk, IsTrue, MatchOption};
ghost use Rattle.certificates.specs.declared.lines.line.SectionKind.TheVariants.{Loops};
ghost use Rattle.certificates.specs.declared.lines.line.CertLine.TheVariants.{Start, Node, Loop, Bound};
ghost use Rattle.certificates.specs.CertLines.{IsBoundValue, IsLineInRange};
ghost use Rattle.section_check.specs.Section.{IsPotential};
ghost use Rattle.certificates.specs.Loop.{IsLoopSaid};
ghost use Rattle.certificates.specs.Drafts.{Begun as BegunDraft, IsDraft, GoesOn, empty_section};
ghost use Rattle.certificates.specs.Certificate.{sort_of};
ghost use Rattle.certificates.specs.Steps.{AreKept, begun_draft, GivesNext, IsClosed};

use crate::reader::current::Current;
use crate::reader::reading::Reading;
use crate::{Cert, CertLine, CertSection, LoopLine, SectionKind, SectionSort};
use base::NoMemory;
use indexmap::IndexSet;
use std::alloc::Global;

/// A certificate whose version and method are read: the sections before the last, the last one, to which
/// lines add, and the sorts of all of them.
#[derive(Drop)]
pub(crate) struct Begun {
    pub version: u32,
    pub root: u32,
    pub closed: Vec<CertSection>,
    pub current: Option<Current>,
    pub sorts: IndexSet<SectionSort>,
}

impl Begun {
    /// What the lines give that say the version and the method.
    pub(crate) fn new(alloc: Global, version: u32, root: u32) -> Self
        ensures draft { begun_draft result ≡ BegunDraft version root [] None }
        ensures kept { AreKept result }
    {
        Begun {
            version,
            root,
            closed: Vec::new(alloc),
            current: None,
            sorts: IndexSet::new(alloc),
        }
    }

    /// What the line gives, if a certificate goes on so.
    pub(crate) fn add(self, alloc: Global, said: CertLine) -> Result<Option<Reading>, NoMemory>
        requires kept { AreKept self }
        requires draft { IsDraft (begun_draft self) }
        requires range { IsLineInRange said }
        ensures { IfOk result (λ next. MatchOption next (¬ GoesOn (begun_draft self) said) (GivesNext (begun_draft self) said)) }
    {
        match said {
            CertLine::Version(_) | CertLine::Root(_) => Ok(None),
            CertLine::Start(kind, method) => self.start(alloc, kind, method),
            CertLine::Node(u, potential) => self.node(u, potential),
            CertLine::Loop(line) => self.add_loop(line),
            CertLine::Bound(bound) => self.finish(bound),
        }
    }

    /// Begins another section.
    fn start(
        mut self,
        alloc: Global,
        kind: SectionKind,
        method: u32,
    ) -> Result<Option<Reading>, NoMemory>
        requires kept { AreKept self }
        requires draft { IsDraft (begun_draft self) }
        ensures { IfOk result (λ next. MatchOption next (¬ GoesOn (begun_draft self) (Start kind method)) (GivesNext (begun_draft self) (Start kind method))) }
    {
        if !has_kind(self.version, kind) {
            return Ok(None);
        }
        if !self.sorts.insert(sort(kind, method))? {
            return Ok(None);
        }
        self.close()?;
        self.current = Some(Current::new(alloc, kind, method));
        Ok(Some(Reading::Begun(self)))
    }

    /// Puts the section to which lines added behind those before it.
    fn close(&mut self) -> Result<(), NoMemory>
        ensures { OnOk result (IsClosed self.old self.new) }
    {
        if let Some(current) = self.current.take() {
            self.closed.push(current.into_section())?;
        }
        Ok(())
    }

    /// Adds a node to the last section.
    fn node(mut self, u: u32, potential: i128) -> Result<Option<Reading>, NoMemory>
        requires kept { AreKept self }
        requires draft { IsDraft (begun_draft self) }
        requires potential { IsPotential potential }
        ensures { IfOk result (λ next. MatchOption next (¬ GoesOn (begun_draft self) (Node u potential)) (GivesNext (begun_draft self) (Node u potential))) }
    {
        let Some(mut current) = self.current.take() else {
            return Ok(None);
        };
        if !current.add_node(u, potential)? {
            return Ok(None);
        }
        self.current = Some(current);
        Ok(Some(Reading::Begun(self)))
    }

    /// Adds a loop to the last section.
    fn add_loop(mut self, line: LoopLine) -> Result<Option<Reading>, NoMemory>
        requires kept { AreKept self }
        requires draft { IsDraft (begun_draft self) }
        requires loop_said { IsLoopSaid line }
        ensures { IfOk result (λ next. MatchOption next (¬ GoesOn (begun_draft self) (Loop line)) (GivesNext (begun_draft self) (Loop line))) }
    {
        let Some(mut current) = self.current.take() else {
            return Ok(None);
        };
        if !current.add_loop(line)? {
            return Ok(None);
        }
        self.current = Some(current);
        Ok(Some(Reading::Begun(self)))
    }

    /// Ends the certificate.
    fn finish(mut self, bound: Option<u64>) -> Result<Option<Reading>, NoMemory>
        requires draft { IsDraft (begun_draft self) }
        requires bound { IsBoundValue bound }
        ensures { IfOk result (λ next. MatchOption next (¬ GoesOn (begun_draft self) (Bound bound)) (GivesNext (begun_draft self) (Bound bound))) }
    {
        self.close()?;
        let cert = Cert::new(self.version, self.root, self.closed, bound);
        Ok(Some(Reading::Whole(cert)))
    }
}

/// Whether certificates of the version have sections of the kind.
fn has_kind(version: u32, kind: SectionKind) -> bool
    ensures { IsTrue result ↔ (kind ≡ Loops → version ≡ 2) }
{
    match kind {
        SectionKind::Loops => version == 2,
        SectionKind::Inside | SectionKind::Alone => true,
    }
}

/// What stands once of a section of the kind.
fn sort(kind: SectionKind, method: u32) -> SectionSort
    ensures { result ≡ sort_of (empty_section kind method) }
{
    let inside = match kind {
        SectionKind::Inside => true,
        SectionKind::Alone | SectionKind::Loops => false,
    };
    SectionSort { method, inside }
}
