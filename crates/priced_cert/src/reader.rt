//! Texts of certificates of version 3 read: the text is parted, and the lines without prices are read as a text of version
//! 2.
ghost use Rattle.std.specs.Prelude.{◌≡◌, ◌-◌, ◌<◌, ◌↔◌, IfOk, IfErr, IsTrue, take};
ghost use Rattle.ascii_text.specs.Line.{lines_of as text_lines};
ghost use Rattle.priced_cert.specs.Texts.{ArePricedLinesOf, IsPricedRefused, SaysPriced};
ghost use Rattle.priced_cert.specs.Parting.{kind_of};
ghost use Rattle.priced_cert.specs.Fronts.{IsFront, is_price, nth_plain};

use crate::cert::PricedCert;
use crate::kind::{LineKind, is_version, kind_of};
use crate::parting::Parting;
use ascii_text::lines;
use base::NoMemory;
use certificates::{CertFault, read_cert};
use std::alloc::Global;

/// Whether the first line of a text says version 3. Then `read_priced_cert` reads it, and otherwise `read_cert`.
pub fn is_priced(text: &[u8]) -> bool
    ensures { IsTrue result ↔ SaysPriced (text_lines text.now) }
{
    match lines(text).next() {
        Some(line) => is_version(line),
        None => false,
    }
}

/// The certificate of version 3 that a text gives. The line feed behind the last line may lack.
pub fn read_priced_cert(alloc: Global, text: &[u8]) -> Result<PricedCert, CertFault>
    ensures read { IfOk result (ArePricedLinesOf (text_lines text.now)) }
    ensures refused { IfErr result (IsPricedRefused text.now) }
{
    let front = part(alloc, text)?;
    match read_cert(alloc, front.parting.plain.as_slice()) {
        Ok(plain) if front.whole => Ok(front.parting.into_cert(plain)),
        Ok(_) => Err(CertFault::Line(front.next)),
        Err(CertFault::Line(n)) => Err(CertFault::Line(plain_number(text, n, front.next))),
        Err(CertFault::NoMemory) => Err(CertFault::NoMemory),
    }
}

/// The lines of a text that were parted, up to its end or the first line that can't stand where it does.
#[derive(Drop)]
pub(crate) struct Front {
    /// What they gave.
    pub parting: Parting,
    /// The number of the line behind them, counted from 1.
    pub next: u64,
    /// Whether they are all.
    pub whole: bool,
}

/// The text parted.
fn part(alloc: Global, text: &[u8]) -> Result<Front, NoMemory>
    ensures { IfOk result (IsFront (text_lines text.now)) }
{
    let mut parting = Parting::new(alloc);
    let mut next = 1u64;
    for line in lines(text) {
        if !parting.take(alloc, line)? {
            return Ok(Front {
                parting,
                next,
                whole: false,
            });
        }
        next += 1;
    }
    Ok(Front {
        parting,
        next,
        whole: true,
    })
}

/// The number of the n-th line without a price among those before a line, or the number of that line where there are
/// fewer.
fn plain_number(text: &[u8], n: u64, next: u64) -> u64
    requires some { 0 < n }
    requires next { 0 < next }
    ensures { result ≡ nth_plain n (take (next - 1) (text_lines text.now)) }
{
    let mut number = 1u64;
    let mut left = n;
    for line in lines(text) {
        if number == next {
            return next;
        }
        if !is_price(line) {
            left -= 1;
            if left == 0 {
                return number;
            }
        }
        number += 1;
    }
    number
}

/// Whether a line is of a price.
fn is_price(line: &[u8]) -> bool
    ensures { result ≡ is_price (kind_of line.now) }
{
    matches!(kind_of(line), LineKind::OfPrice)
}
