//! Shows on a table what the commands of the program do with files and streams in memory of which a call fails, and what a watch
//! holds. What each row has to give was worked out from the formats: `tests/expected/programs/README.md`.
//!
//! Each line of the input is a call; its items stand between blanks:
//!
//! - `<HEX`: the bytes of the input.
//! - `/N`, `!N`, `^N` and `?N`: the call of this number on the files, on the input, on out or on err fails.
//! - `WORD=HEX`: a word, and the bytes of the file that it names.
//! - `WORD=@`: the same, with the bytes that the last call of `link` put out.
//! - `WORD`: a word; a file of this name can't be read.
//!
//! Of a line `each MARK CALL`, where the mark is one of these four, come the answers where the first such call fails, then the second, until none
//! does: the status, and whether out and err hold all that the call puts there where none fails, or a front of it. Answers that follow one
//! another and are the same stand there once.
//!
//! Of a line `checked FILES`, where the files are an image, a text of bounds and a certificate, come the statuses of `check` of them and of `run`
//! of the image.
//!
//! Two lines come of each other one: the words with the status and what was put out, and what stands on err. Behind those of a trace come its
//! lines, of a long one the first and the last. Of a line `watch HEX` come the states that a watch holds after a run of this image, of
//! many the first and the last, and once more those of one that was made with room for 4,096.
#![tactic(auto)]

mod call;
mod checked;
mod each;
mod row;
mod watch;

use call::show;
use checked::show_checked;
use each::show_each;
use std::alloc::Global;
use std::io;
use test_rows::RowFault;
use watch::show_watches;

/// Does what a line says, and gives what the last call of `link` put out.
fn do_line(rt: &HostRuntime, line: &str, last: Vec<u8>) -> Result<Vec<u8>, RowFault> {
    if let Some(digits) = line.strip_prefix("watch ") {
        show_watches(rt, digits)?;
        return Ok(last);
    }
    if let Some(row) = line.strip_prefix("each ") {
        show_each(rt, row, &last)?;
        return Ok(last);
    }
    if let Some(row) = line.strip_prefix("checked ") {
        show_checked(rt, row, &last)?;
        return Ok(last);
    }
    let out = show(rt, line, &last)?;
    Ok(if line.starts_with("link ") { out } else { last })
}

fn main(rt: HostRuntime) -> io::Result<()> {
    let mut last: Vec<u8, Global> = Vec::new(rt.alloc());
    for line in rt.lines(rt.alloc()) {
        match do_line(&rt, line?.as_str(), last) {
            Ok(out) => last = out,
            Err(fault) => {
                fault.told(&rt)?;
                last = Vec::new(rt.alloc());
            }
        }
    }
    Ok(())
}
