//! Putting what answers a question.
ghost use Rattle.std.specs.Prelude.{◌≡◌};
ghost use Rattle.endings.specs.Leaving.{Leaves};
ghost use Rattle.endings.specs.Putting.{PutsText, PutsAnswer};

use crate::outcome::{Answer, Ending};
use outside::{Sink, put_all};

/// Puts an answer. Nothing is put before the whole text stands.
pub fn put_answer<O: Sink>(answer: Answer, out: &mut O) -> Ending
    ensures puts { PutsAnswer answer (O.held out.old) (O.held out.new) (O.faults out.old) (O.faults out.new) result }
    ensures leaves { Leaves result → out.new ≡ out.old }
{
    match answer {
        Answer::Text(text) => put_text(&text, out),
        Answer::Ends(ending) => ending,
    }
}

/// Puts a text.
fn put_text<O: Sink>(text: &[u8], out: &mut O) -> Ending
    ensures puts { PutsText text.now (O.held out.old) (O.held out.new) (O.faults out.old) (O.faults out.new) result }
    ensures leaves { Leaves result → out.new ≡ out.old }
{
    match put_all(out, text) {
        Ok(()) => Ending::Written,
        Err(_) => Ending::WriteFault,
    }
}
