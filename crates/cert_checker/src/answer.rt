//! The answer to a section, by those of the parts of its check.
ghost use Rattle.std.specs.Prelude.{◌≡◌};
ghost use Rattle.cert_checker.specs.Answer.{at_node, joined};

use super::nodes::lesser;
use bound_rules::CheckFault;
use section_check::section::SectionFault;

/// A wrong node of the method, where there is one, before what else is answered.
fn at_node(
    m: u32,
    wrong: Option<u32>,
    otherwise: Result<Option<u64>, CheckFault>,
) -> Result<Option<u64>, CheckFault>
    ensures { result ≡ at_node m wrong otherwise }
{
    match wrong {
        Some(u) => Err(CheckFault::Member(m, u)),
        None => otherwise,
    }
}

/// The answer to the section of a method, by the answer to its potentials and the least of the other wrong nodes.
pub fn joined(
    m: u32,
    wrong: Option<u32>,
    answer: Result<Option<u64>, SectionFault>,
) -> Result<Option<u64>, CheckFault>
    ensures { result ≡ joined m wrong answer }
{
    match answer {
        Ok(value) => at_node(m, wrong, Ok(value)),
        Err(fault) => match fault {
            SectionFault::Member(u) => {
                at_node(m, lesser(wrong, Some(u)), Err(CheckFault::Member(m, u)))
            }
            SectionFault::Edge(u, v) => at_node(m, wrong, Err(CheckFault::Edge(m, u, v))),
            SectionFault::Exit(u) => at_node(m, wrong, Err(CheckFault::Exit(m, u))),
        },
    }
}
