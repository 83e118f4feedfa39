//! What is asked of an image by facts.
ghost use Rattle.std.specs.Prelude.{◌≡◌, ◌+◌, ◌^◌, ◌<◌, ◌≤◌, ℕ, List, Option, All, length, sum_by, IfErr, IfOk};
ghost use Rattle.base.specs.Sizes.{longest_file};
ghost use Rattle.device_traits.specs.declared.seen.Seen.{Seen};
ghost use Rattle.image_file.specs.Linked.{contents};
ghost use Rattle.outside.specs.Outside.{IsWhole};
ghost use Rattle.outside.specs.Files.{files_told, OnlyWords, most_bytes};
ghost use Rattle.command_line.specs.Command.{texts};
ghost use Rattle.endings.specs.Line.{text_of_word};
ghost use Rattle.endings.specs.World.{world};
ghost use Rattle.endings.specs.Leaving.{Leaves};
ghost use Rattle.endings.specs.Opening.{Opens};
ghost use Rattle.ask_commands.specs.PricedFiles.{HasPricedSettings, IsPricedAnswer, IsBarePricedAnswer, AnswersWith, IsFactsEnding, AsksFilesWith};

use crate::pricing::{
    bound_bare_image_with, bound_linked_with, check_bare_image_with, check_linked_with,
};
use command_line::Settings;
use endings::image::{Image, open_image};
use endings::lines::text_of;
use endings::linking::read_operands;
use endings::operands::operand;
use endings::outcome::{Answer, Ending, Refusal};
use endings::putting::put_answer;
use jop_core::Bare;
use jopizer::Linked;
use outside::{Files, LONGEST_FILE, ReadAll, Sink, read_all};
use std::alloc::Global;

/// What is asked of an image by facts.
#[derive(Clone, Copy)]
pub enum PricedQuestion {
    /// Whether a certificate meets its conditions. Its operands are an image, bounds of loops and the certificate.
    CheckWith { settings: Settings },
    /// A certificate of the method that the word names. Its operands are an image and bounds of loops.
    BoundWith { settings: Settings, method: u32 },
}

/// A question about the image of a word, by facts.
#[derive(Clone, Copy)]
pub struct AskedWith {
    pub question: PricedQuestion,
    /// The word of the image, the first operand.
    pub image: u32,
    /// How many operands there are.
    pub operands: u32,
    /// The word of the file of facts.
    pub facts: u32,
}

/// The answer of what was linked.
fn answer_linked_with(
    alloc: Global,
    words: &[&str],
    question: PricedQuestion,
    linked: &Linked,
    operands: &[Vec<u8>],
    facts: &[u8],
) -> Answer
    requires settings { HasPricedSettings question }
    requires short { All (λ text. length text.items ≤ longest_file) operands.now }
    requires short_facts { length facts.now ≤ longest_file }
    ensures { IsPricedAnswer (texts words.now) question linked.now (contents operands.now) facts.now result }
{
    let bounds = operand(operands, 1);
    match question {
        PricedQuestion::CheckWith { settings } => {
            let certificate = operand(operands, 2);
            Answer::Ends(check_linked_with(alloc, linked, &settings, bounds, facts, certificate))
        }
        PricedQuestion::BoundWith { settings, method } => {
            bound_linked_with(
                alloc,
                linked,
                &settings,
                text_of(words, method),
                bounds,
                facts,
            )
        }
    }
}

/// The answer of a bare image, which has no classes.
fn answer_bare_with(
    alloc: Global,
    question: PricedQuestion,
    image: &Bare,
    operands: &[Vec<u8>],
    facts: &[u8],
) -> Answer
    requires settings { HasPricedSettings question }
    requires short { All (λ text. length text.items ≤ longest_file) operands.now }
    requires short_facts { length facts.now ≤ longest_file }
    ensures { IsBarePricedAnswer question image.now (contents operands.now) facts.now result }
{
    let bounds = operand(operands, 1);
    match question {
        PricedQuestion::CheckWith { settings } => {
            let certificate = operand(operands, 2);
            Answer::Ends(check_bare_image_with(alloc, image, &settings, bounds, facts, certificate))
        }
        PricedQuestion::BoundWith { settings, .. } => {
            Answer::Ends(bound_bare_image_with(alloc, image, &settings, bounds, facts))
        }
    }
}

/// The answer of an image.
fn answer_image_with(
    alloc: Global,
    words: &[&str],
    question: PricedQuestion,
    image: &Image,
    operands: &[Vec<u8>],
    facts: &[u8],
) -> Answer
    requires settings { HasPricedSettings question }
    requires short { All (λ text. length text.items ≤ longest_file) operands.now }
    requires short_facts { length facts.now ≤ longest_file }
    requires opens { Opens (text_of_word (contents operands.now) 0) image.now }
    ensures { AnswersWith (texts words.now) question (contents operands.now) facts.now result }
{
    match image {
        Image::Linked(linked) => {
            // The laws are for the proof.
            linked.is_typed();
            linked.is_said();
            linked.program().program().is_resolved();
            answer_linked_with(alloc, words, question, linked, operands, facts)
        }
        Image::Bare(bare) => answer_bare_with(alloc, question, bare, operands, facts),
    }
}

/// The answer of the image that the first operand is.
fn answer_operands_with(
    alloc: Global,
    words: &[&str],
    question: PricedQuestion,
    operands: &[Vec<u8>],
    facts: &[u8],
) -> Answer
    requires settings { HasPricedSettings question }
    requires short { All (λ text. length text.items ≤ longest_file) operands.now }
    requires short_facts { length facts.now ≤ longest_file }
    ensures { AnswersWith (texts words.now) question (contents operands.now) facts.now result }
{
    match open_image(alloc, operand(operands, 0)) {
        Ok(image) => {
            let answer = answer_image_with(alloc, words, question, &image, operands, facts);
            // By a call: what its parts' destructors do is proved there.
            drop(image);
            answer
        }
        Err(ending) => Answer::Ends(ending),
    }
}

/// The bytes of all operands together.
fn bytes_of(operands: &[Vec<u8>]) -> u64
    requires { sum_by length (contents operands.now) ≤ most_bytes }
    ensures { result ≡ sum_by length (contents operands.now) }
{
    let mut bytes = 0u64;
    for text in operands {
        bytes += text.len() as u64;
    }
    bytes
}

/// The text of facts, which is the file of a word. Operands with so many bytes were read before it.
fn read_facts_file<F: Files>(
    alloc: Global,
    files: &mut F,
    word: u32,
    bytes: u64,
) -> Result<Vec<u8>, Ending>
    requires there { word < F.words files.old }
    requires few { bytes ≤ most_bytes }
    ensures text { IfOk result (λ facts. IsWhole (F.told files.old word) facts.items) }
    ensures within { IfOk result (λ facts. bytes + length facts.items ≤ most_bytes) }
    ensures rest { OnlyWords (files_told (F.words files.old) (F.told files.old) (F.faults files.old))
        (files_told (F.words files.new) (F.told files.new) (F.faults files.new)) word (word + 1) }
    ensures fault { IfErr result (IsFactsEnding word bytes (F.told files.old word) (F.faults files.old word) (F.faults files.new word)) }
{
    match read_all(alloc, files, word, LONGEST_FILE - bytes) {
        Ok(facts) => Ok(facts),
        Err(ReadAll::TooBig(length)) => {
            let sum = u128::from(bytes) + u128::from(length);
            Err(Ending::Refused(Refusal::TooBig(word, sum)))
        }
        Err(ReadAll::ReadFault) => Err(Ending::ReadFault),
        Err(ReadAll::NoMemory) => Err(Ending::NoMemory),
    }
}

/// Asks the image of a word, with the operands behind it and the facts of another word, and puts what answers.
pub fn ask_files_with<F: Files, O: Sink>(
    alloc: Global,
    words: &[&str],
    asked: &AskedWith,
    files: &mut F,
    out: &mut O,
) -> Ending
    requires settings { HasPricedSettings asked.now.question }
    requires there { asked.now.image + asked.now.operands ≤ F.words files.old }
    requires facts { asked.now.facts < F.words files.old }
    requires few { F.words files.old < 2 ^ 32 }
    ensures asks { (left : Option (List ℕ)) (read_faults : ℕ) (watch : Option (List Seen)) → AsksFilesWith (texts words.now) asked.now
        (world (F.words files.old) (F.told files.old) (F.faults files.old) left read_faults (O.held out.old) (O.faults out.old) watch)
        (world (F.words files.new) (F.told files.new) (F.faults files.new) left read_faults (O.held out.new) (O.faults out.new) watch) result }
    ensures leaves { Leaves result → out.new ≡ out.old }
{
    let operands = match read_operands(alloc, files, asked.image, asked.image + asked.operands) {
        Ok(operands) => operands,
        Err(ending) => return ending,
    };
    match read_facts_file(alloc, files, asked.facts, bytes_of(&operands)) {
        Ok(facts) => put_answer(
            answer_operands_with(alloc, words, asked.question, &operands, &facts),
            out,
        ),
        Err(ending) => ending,
    }
}
