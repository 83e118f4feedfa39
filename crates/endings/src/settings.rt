//! The settings of a machine.
ghost use Rattle.std.specs.Prelude.{◌≡◌, ◌≤◌, length};
ghost use Rattle.method_cache.specs.Contents.{blocks_for};
ghost use Rattle.jop_core.specs.Reset.{words_for};
ghost use Rattle.command_line.specs.Range.{AreSettings};
ghost use Rattle.endings.specs.Phase.{HasSettings};
ghost use Rattle.endings.specs.Settings.{usual_settings};

use crate::show::Show;
use boundary::verified_programs_are_told;
use command_line::Settings;
use jop_core::{Bare, Config};
use jopizer::Linked;

/// The machine of a run, the cycles after which it is stopped, and what it shows.
#[derive(Clone, Copy)]
pub struct Plan {
    pub config: Config,
    pub limit: u64,
    pub show: Show,
}

/// The machine that these settings give.
pub fn config_of(settings: &Settings) -> Config
    requires { AreSettings settings.now }
    ensures { HasSettings settings.now result }
{
    Config {
        memory: settings.memory,
        read: settings.read,
        write: settings.write,
        blocks: settings.blocks,
        block_words: settings.block_words,
    }
}

/// The settings where no option is given.
pub fn usual_settings() -> Settings
    ensures is { result ≡ usual_settings }
    ensures range { AreSettings result }
{
    Settings {
        cycles: 1_000_000_000,
        stack: 1024,
        memory: 262_144,
        blocks: 16,
        block_words: 64,
        read: 1,
        write: 2,
    }
}

/// The run that these settings give.
pub fn plan_of(settings: &Settings, show: Show) -> Plan
    requires { AreSettings settings.now }
    ensures config { HasSettings settings.now result.config }
    ensures limit { result.limit ≡ settings.now.cycles }
    ensures show { result.show ≡ show }
{
    Plan {
        config: config_of(settings),
        limit: settings.cycles,
        show,
    }
}

/// How many words the image has.
pub fn words_of(linked: &Linked) -> u32
    ensures { result ≡ length linked.now.laid.words }
{
    // The law is for the proof.
    verified_programs_are_told();
    let program = linked.program();
    program.program().is_resolved();
    program.is_typed();
    linked.layout().words().len() as u32
}

/// The blocks of so many words that the code of an image takes.
pub fn blocks_of(image: &Bare, block_words: u32) -> u32
    requires { 1 ≤ block_words }
    ensures { result ≡ blocks_for block_words (words_for (length image.now.code)) }
{
    let words = (image.code().len() as u32).div_ceil(4);
    words.div_ceil(block_words)
}
