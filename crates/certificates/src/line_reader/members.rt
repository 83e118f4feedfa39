//! The members of a loop in a line.
ghost use Rattle.std.specs.Prelude.{◌<◌, ◌^◌, IfOk};
ghost use Rattle.certificates.specs.Finding.{Finds, FindsAs, IsBehindPart};
ghost use Rattle.certificates.specs.Loop.{AreLoopMembers, IsAbove, last_of};
ghost use Rattle.certificates.specs.CertLines.{node_text, members_text};

use crate::line_reader::number::node;
use crate::line_reader::part::first_part;
use base::NoMemory;
use std::alloc::Global;

/// The members that the text is, if it is some, each behind a space.
pub(crate) fn members(alloc: Global, text: &[u8]) -> Result<Option<Vec<u32>>, NoMemory>
    requires { IsBehindPart text.now }
    ensures { IfOk result (FindsAs (λ members. members.items) members_text AreLoopMembers text.now) }
{
    let mut members = Vec::new(alloc);
    let mut rest = text;
    while let Some(behind) = rest.strip_prefix(b" ") {
        let (part, after) = first_part(behind);
        let Some(node) = node_above(members.as_slice(), part) else {
            return Ok(None);
        };
        members.push(node)?;
        rest = after;
    }
    let found = if members.is_empty() {
        None
    } else {
        Some(members)
    };
    Ok(found)
}

/// The node that the text is, if it is one above the members so far.
fn node_above(members: &[u32], text: &[u8]) -> Option<u32>
    ensures { Finds node_text (λ u. (u < 2 ^ 32) × IsAbove (last_of members.now) u) text.now result }
{
    let next = node(text)?;
    if let Some(last) = members.last() {
        if next <= *last {
            return None;
        }
    }
    Some(next)
}
