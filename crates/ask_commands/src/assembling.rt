//! Assembling the text of an operand.
ghost use Rattle.std.specs.Prelude.{◌≡◌, ◌<◌, ◌≤◌, ℕ, List, Option, length, IfOk, IfErr};
ghost use Rattle.base.specs.Sizes.{longest_file};
ghost use Rattle.device_traits.specs.declared.seen.Seen.{Seen};
ghost use Rattle.endings.specs.World.{world};
ghost use Rattle.ask_commands.specs.Assembling.{IsListing, ListingFault, Assembles};
ghost use Rattle.endings.specs.Leaving.{Leaves};

use endings::load::load;
use endings::outcome::{AsmRefusal, Ending, Refusal};
use microcode_asm::{AsmFault, assemble, listing_of};
use outside::{Files, Sink, put_all};
use std::alloc::Global;

/// The lines of the words of the microprogram that a text is.
fn listing(alloc: Global, text: &[u8]) -> Result<Vec<u8>, Ending>
    requires { length text.now ≤ longest_file }
    ensures listing { IfOk result (λ listing. IsListing text.now listing.items) }
    ensures fault { IfErr result (ListingFault text.now) }
{
    let rom = match assemble(alloc, text) {
        Ok(rom) => rom,
        Err(AsmFault::Line(number, kind)) => {
            return Err(Ending::Refused(Refusal::Asm(AsmRefusal::Line(number, kind))));
        }
        Err(AsmFault::TooLong(words)) => {
            return Err(Ending::Refused(Refusal::Asm(AsmRefusal::TooLong(words))));
        }
        Err(AsmFault::NoMemory) => return Err(Ending::NoMemory),
    };
    match listing_of(alloc, rom.words.as_slice()) {
        Ok(listing) => Ok(listing),
        Err(_) => Err(Ending::NoMemory),
    }
}

/// Assembles the text of a word, and puts the lines of its words.
pub fn assemble_file<F: Files, O: Sink>(
    alloc: Global,
    word: u32,
    files: &mut F,
    out: &mut O,
) -> Ending
    requires there { word < F.words files.old }
    ensures assembles { (left : Option (List ℕ)) (read_faults : ℕ) (watch : Option (List Seen)) → Assembles word
        (world (F.words files.old) (F.told files.old) (F.faults files.old) left read_faults (O.held out.old) (O.faults out.old) watch)
        (world (F.words files.new) (F.told files.new) (F.faults files.new) left read_faults (O.held out.new) (O.faults out.new) watch) result }
    ensures leaves { Leaves result → out.new ≡ out.old }
{
    let text = match load(alloc, files, word) {
        Ok(text) => text,
        Err(ending) => return ending,
    };
    let listing = match listing(alloc, &text) {
        Ok(listing) => listing,
        Err(ending) => return ending,
    };
    match put_all(out, &listing) {
        Ok(()) => Ending::Written,
        Err(_) => Ending::WriteFault,
    }
}
