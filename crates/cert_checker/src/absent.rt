//! The least method that is absent and that an invoke among the nodes of a section may run.
ghost use Rattle.std.specs.Prelude.{◌≡◌, ◌<◌, All, length};
ghost use Rattle.section_check.specs.Least.{IsLeast};
ghost use Rattle.cert_checker.specs.Prepared.{IsAbsentAt};

use super::nodes::{is_flagged, lesser};
use super::summaries::Summary;
use method_flow::Call;

/// The least absent target of the calls to which control comes, where each call's is known.
pub fn least_absent(calls: &[Call], summaries: &[Summary], nodes: &[bool]) -> Option<u32>
    requires long { length summaries.now ≡ length calls.now }
    requires places { All (λ c. c.place < 65536) calls.now }
    ensures { IsLeast (IsAbsentAt calls.now summaries.now nodes.now) result }
{
    let mut least = None;
    for i in 0..calls.len() {
        if is_flagged(nodes, 2 * calls[i].place) {
            least = lesser(least, summaries[i].absent);
        }
    }
    least
}
