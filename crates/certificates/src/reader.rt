//! Texts of certificates read, in one pass, line by line. The crate `certificates` says what such a text is.

ghost use Rattle.std.specs.Prelude.{IfOk, IfErr};
ghost use Rattle.ascii_text.specs.Line.{lines_of as text_lines};
ghost use Rattle.certificates.specs.Texts.{AreLinesOf};
ghost use Rattle.certificates.specs.Refused.{IsRefused};

mod begun;
mod current;
mod reading;

use crate::Cert;
use ascii_text::lines;
use base::NoMemory;
use reading::Reading;
use std::alloc::Global;
use thiserror::Error;

/// Why a text gives no certificate.
#[derive(Debug, Drop, Error)]
pub enum CertFault {
    /// No certificate begins with the lines up to the one of this number, counted from 1. Where the text
    /// ends too early, it is the number of the line behind the last.
    #[error("line {0}: no certificate goes on so")]
    Line(u64),
    /// There is no memory.
    #[error("no memory")]
    NoMemory,
}

impl From<NoMemory> for CertFault {
    ghost use Rattle.std.specs.Prelude.{◌≡◌};
    ghost use Rattle.certificates.specs.declared.reader.CertFault.TheVariants.{NoMemory as Spent};

    ghost from_gives = { λ _ fault. fault ≡ Spent };

    fn from(_: NoMemory) -> Self {
        CertFault::NoMemory
    }
}

/// The certificate that a text gives. The line feed behind the last line may lack.
pub fn read_cert(alloc: Global, text: &[u8]) -> Result<Cert, CertFault>
    ensures read { IfOk result (AreLinesOf (text_lines text.now)) }
    ensures refused { IfErr result (IsRefused text.now) }
{
    let mut reading = Reading::Blank;
    let mut number = 0u64;
    for line in lines(text) {
        number += 1;
        match reading.next(alloc, line)? {
            Some(next) => reading = next,
            None => return Err(CertFault::Line(number)),
        }
    }
    match reading {
        Reading::Whole(cert) => Ok(cert),
        _ => Err(CertFault::Line(number + 1)),
    }
}
