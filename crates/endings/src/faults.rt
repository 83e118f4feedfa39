//! How it ends where there is no analysis.
ghost use Rattle.std.specs.Prelude.{◌≡◌};
ghost use Rattle.endings.specs.AnalysisFaults.{fault_ending};

use crate::outcome::{Ending, Refusal};
use answer_lines::AnalysisFault;
use command_line::Settings;

/// The ending that says why there is no analysis.
pub fn fault_ending(settings: &Settings, fault: AnalysisFault) -> Ending
    ensures { result ≡ fault_ending settings.now fault }
{
    match fault {
        AnalysisFault::MethodTooLong(method, name, blocks) => {
            Ending::TooLong(method, name, blocks, settings.blocks)
        }
        AnalysisFault::BadBounds(line) => Ending::Refused(Refusal::BadBounds(line)),
        AnalysisFault::TwiceBound(line) => Ending::Refused(Refusal::TwiceBound(line)),
        AnalysisFault::NoMemory => Ending::NoMemory,
    }
}
