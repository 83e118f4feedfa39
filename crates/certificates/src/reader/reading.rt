//! A certificate as it is read, line by line.
ghost use Rattle.std.specs.Prelude.{◌≡◌, IfOk, MatchOption};
ghost use Rattle.certificates.specs.CertLines.{IsVersion, IsLineInRange};
ghost use Rattle.certificates.specs.Drafts.{Blank, Versioned, Refuses, GoesOn};
ghost use Rattle.certificates.specs.Steps.{draft_of, IsReading, GivesNext, AddsNext};

use crate::line_reader::read_line;
use crate::reader::begun::Begun;
use crate::{Cert, CertLine};
use base::NoMemory;
use std::alloc::Global;

/// What the lines so far have given.
#[derive(Drop)]
pub(crate) enum Reading {
    /// There was none.
    Blank,
    /// The version.
    Versioned(u32),
    /// The version, the method and some sections.
    Begun(Begun),
    /// The certificate.
    Whole(Cert),
}

impl Reading {
    /// What they give with one line more, if a certificate goes on so.
    pub(crate) fn next(self, alloc: Global, line: &[u8]) -> Result<Option<Reading>, NoMemory>
        requires { IsReading self }
        ensures { IfOk result (λ next. MatchOption next (Refuses (draft_of self) line.now) (AddsNext (draft_of self) line.now)) }
    {
        match read_line(alloc, line)? {
            Some(said) => self.add(alloc, said),
            None => Ok(None),
        }
    }

    /// What they give with what one line more says, if a certificate goes on so.
    fn add(self, alloc: Global, said: CertLine) -> Result<Option<Reading>, NoMemory>
        requires reading { IsReading self }
        requires range { IsLineInRange said }
        ensures { IfOk result (λ next. MatchOption next (¬ GoesOn (draft_of self) said) (GivesNext (draft_of self) said)) }
    {
        match self {
            Reading::Blank => Ok(first(said)),
            Reading::Versioned(version) => Ok(second(alloc, version, said)),
            Reading::Begun(begun) => begun.add(alloc, said),
            Reading::Whole(_) => Ok(None),
        }
    }
}

/// What the first line gives.
fn first(said: CertLine) -> Option<Reading>
    requires { IsLineInRange said }
    ensures { MatchOption result (¬ GoesOn Blank said) (GivesNext Blank said) }
{
    match said {
        CertLine::Version(version) => Some(Reading::Versioned(version)),
        _ => None,
    }
}

/// What the line behind the version gives.
fn second(alloc: Global, version: u32, said: CertLine) -> Option<Reading>
    requires version { IsVersion version }
    requires range { IsLineInRange said }
    ensures { MatchOption result (¬ GoesOn (Versioned version) said) (GivesNext (Versioned version) said) }
{
    match said {
        CertLine::Root(root) => Some(Reading::Begun(Begun::new(alloc, version, root))),
        _ => None,
    }
}
