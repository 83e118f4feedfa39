//! What is asked of an image, and answered by a text or by a line.
ghost use Rattle.std.specs.Prelude.{◌≡◌, ◌+◌, ◌^◌, ◌<◌, ◌≤◌, ℕ, List, Option, All, length};
ghost use Rattle.base.specs.Sizes.{longest_file};
ghost use Rattle.device_traits.specs.declared.seen.Seen.{Seen};
ghost use Rattle.image_file.specs.Linked.{contents};
ghost use Rattle.command_line.specs.Command.{texts};
ghost use Rattle.endings.specs.Line.{text_of_word};
ghost use Rattle.endings.specs.World.{world};
ghost use Rattle.endings.specs.Leaving.{Leaves};
ghost use Rattle.endings.specs.Opening.{Opens};
ghost use Rattle.ask_commands.specs.Asking.{HasRightSettings, IsAnswer, IsBareAnswer, Answers, AsksFiles};

use crate::all_bounds::{bounds_bare, bounds_linked};
use crate::bounding::{bound_bare_image, bound_linked, shapes_bare, shapes_linked};
use crate::checking::{check_bare_image, check_linked};
use crate::circuits::{circuit_bare, circuit_linked};
use crate::headers::{headers_bare, headers_linked};
use crate::needs::{loops_linked, memory_bare, memory_linked};
use crate::reporting::report_linked;
use command_line::Settings;
use endings::image::{Image, open_image};
use endings::lines::text_of;
use endings::linking::read_operands;
use endings::operands::operand;
use endings::outcome::{Answer, Ending};
use endings::putting::put_answer;
use jop_core::Bare;
use jopizer::Linked;
use outside::{Files, Sink};
use std::alloc::Global;

/// What is asked of an image, with the settings of the machine where the answer hangs on them, and the words that it names.
#[derive(Clone, Copy)]
pub enum Question {
    /// Whether a certificate meets its conditions. Its operands are an image, bounds of loops and the certificate.
    Check { settings: Settings },
    /// A certificate of the method that the word names. Its operands are an image and bounds of loops.
    Bound { settings: Settings, method: u32 },
    /// The bounds of all methods. Its operands are an image and bounds of loops.
    Bounds { settings: Settings },
    /// The bound of the method that the word names in each shape of the method cache. Its operands are an image and bounds of loops.
    Shapes { settings: Settings, method: u32 },
    /// Where the bound of the method that the word names comes from. Its operands are an image and bounds of loops.
    Report { settings: Settings, method: u32 },
    /// The loops that count, with what is known further or by constants alone. Its operand is an image.
    Loops { further: bool },
    /// The loops as a text of bounds. Its operands are an image, and bounds by lines of sources where they are given.
    Headers,
    /// What a run needs of memory. Its operands are an image, bounds of loops and lengths of arrays.
    Memory,
    /// The machine with the image in it as a circuit. Its operand is an image.
    Rtl { settings: Settings },
}

/// A question about the image of a word.
#[derive(Clone, Copy)]
pub struct Asked {
    pub question: Question,
    /// The word of the image, the first operand.
    pub image: u32,
    /// How many operands there are.
    pub operands: u32,
}

/// The answer of what was linked.
fn answer_linked(
    alloc: Global,
    words: &[&str],
    question: Question,
    linked: &Linked,
    operands: &[Vec<u8>],
) -> Answer
    requires settings { HasRightSettings question }
    requires short { All (λ text. length text.items ≤ longest_file) operands.now }
    ensures { IsAnswer (texts words.now) question linked.now (contents operands.now) result }
{
    let bounds = operand(operands, 1);
    match question {
        Question::Check { settings } => {
            let certificate = operand(operands, 2);
            Answer::Ends(check_linked(alloc, linked, &settings, bounds, certificate))
        }
        Question::Bound { settings, method } => {
            bound_linked(alloc, linked, &settings, text_of(words, method), bounds)
        }
        Question::Bounds { settings } => bounds_linked(alloc, linked, &settings, bounds),
        Question::Shapes { settings, method } => {
            shapes_linked(alloc, linked, &settings, text_of(words, method), bounds)
        }
        Question::Report { settings, method } => {
            report_linked(alloc, linked, &settings, text_of(words, method), bounds)
        }
        Question::Loops { further } => loops_linked(alloc, linked, further),
        Question::Headers => headers_linked(alloc, linked, bounds),
        Question::Memory => memory_linked(alloc, linked, bounds, operand(operands, 2)),
        Question::Rtl { settings } => circuit_linked(alloc, linked, &settings),
    }
}

/// The answer of a bare image, which has no classes.
fn answer_bare(alloc: Global, question: Question, image: &Bare, operands: &[Vec<u8>]) -> Answer
    requires settings { HasRightSettings question }
    requires short { All (λ text. length text.items ≤ longest_file) operands.now }
    ensures { IsBareAnswer question image.now (contents operands.now) result }
{
    let bounds = operand(operands, 1);
    match question {
        Question::Check { settings } => {
            let certificate = operand(operands, 2);
            Answer::Ends(check_bare_image(alloc, image, &settings, bounds, certificate))
        }
        Question::Bound { settings, .. } | Question::Report { settings, .. } => {
            Answer::Ends(bound_bare_image(alloc, image, &settings, bounds))
        }
        Question::Bounds { settings } => bounds_bare(alloc, image, &settings, bounds),
        Question::Shapes { settings, .. } => Answer::Ends(shapes_bare(alloc, &settings, bounds)),
        Question::Loops { .. } => Answer::Text(Vec::new(alloc)),
        Question::Headers => headers_bare(alloc, bounds),
        Question::Memory => memory_bare(alloc, image, bounds, operand(operands, 2)),
        Question::Rtl { settings } => circuit_bare(alloc, image, &settings),
    }
}

/// The answer of an image.
fn answer_image(
    alloc: Global,
    words: &[&str],
    question: Question,
    image: &Image,
    operands: &[Vec<u8>],
) -> Answer
    requires settings { HasRightSettings question }
    requires short { All (λ text. length text.items ≤ longest_file) operands.now }
    requires opens { Opens (text_of_word (contents operands.now) 0) image.now }
    ensures { Answers (texts words.now) question (contents operands.now) result }
{
    match image {
        Image::Linked(linked) => {
            // The laws are for the proof.
            linked.is_typed();
            linked.is_said();
            linked.program().program().is_resolved();
            answer_linked(alloc, words, question, linked, operands)
        }
        Image::Bare(bare) => answer_bare(alloc, question, bare, operands),
    }
}

/// The answer of the image that the first operand is.
fn answer_operands(
    alloc: Global,
    words: &[&str],
    question: Question,
    operands: &[Vec<u8>],
) -> Answer
    requires settings { HasRightSettings question }
    requires short { All (λ text. length text.items ≤ longest_file) operands.now }
    ensures { Answers (texts words.now) question (contents operands.now) result }
{
    match open_image(alloc, operand(operands, 0)) {
        Ok(image) => {
            let answer = answer_image(alloc, words, question, &image, operands);
            // By a call: what its parts' destructors do is proved there.
            drop(image);
            answer
        }
        Err(ending) => Answer::Ends(ending),
    }
}

/// Asks the image of a word, with the operands behind it, and puts what answers.
pub fn ask_files<F: Files, O: Sink>(
    alloc: Global,
    words: &[&str],
    asked: &Asked,
    files: &mut F,
    out: &mut O,
) -> Ending
    requires settings { HasRightSettings asked.now.question }
    requires there { asked.now.image + asked.now.operands ≤ F.words files.old }
    requires few { F.words files.old < 2 ^ 32 }
    ensures asks { (left : Option (List ℕ)) (read_faults : ℕ) (watch : Option (List Seen)) → AsksFiles (texts words.now) asked.now
        (world (F.words files.old) (F.told files.old) (F.faults files.old) left read_faults (O.held out.old) (O.faults out.old) watch)
        (world (F.words files.new) (F.told files.new) (F.faults files.new) left read_faults (O.held out.new) (O.faults out.new) watch) result }
    ensures leaves { Leaves result → out.new ≡ out.old }
{
    match read_operands(alloc, files, asked.image, asked.image + asked.operands) {
        Ok(operands) => put_answer(
            answer_operands(alloc, words, asked.question, &operands),
            out,
        ),
        Err(ending) => ending,
    }
}
