//! A text parted, line by line: the lines of prices, and the others.
ghost use Rattle.std.specs.Prelude.{◌≡◌, [], IfOk, OnOk, IsTrue, IsSome, ◌↔◌};
ghost use Rattle.certificates.specs.Finding.{Finds};
ghost use Rattle.priced_cert.specs.declared.kind.LineKind.TheVariants.{OfPrice, OfSection, OfBound, Other};
ghost use Rattle.priced_cert.specs.declared.parting.Stage.TheVariants.{Blank, Versioned, Begun};
ghost use Rattle.priced_cert.specs.Prices.{StandsBefore, IsLess, IsBehind, IsBehindInRoot, price_line, root_price_line};
ghost use Rattle.priced_cert.specs.Parting.{Blank as nothing, kind_of};
ghost use Rattle.priced_cert.specs.Shown.{Shows, TakesNow, AddsPlain, IsClosed};

use crate::cert::PricedCert;
use crate::kind::{LineKind, is_version, kind_of};
use crate::price_lines::{root_price, section_price};
use crate::prices::{Price, Prices, RootPrice};
use base::NoMemory;
use certificates::Cert;
use std::alloc::Global;

/// What lines may follow.
#[derive(Clone, Copy)]
pub(crate) enum Stage {
    /// There was none.
    Blank,
    /// The version is read.
    Versioned,
    /// The version and the method are read, and perhaps sections.
    Begun,
    /// The bound is read.
    Ended,
}

/// What the lines so far have given.
#[derive(Drop)]
pub(crate) struct Parting {
    pub stage: Stage,
    /// The lines without those of prices, as a text of version 2.
    pub plain: Vec<u8>,
    /// The prices in the root.
    pub root_prices: Vec<RootPrice>,
    /// The prices of the sections before the last.
    pub closed: Vec<Prices>,
    /// Those of the last section, if one has begun.
    pub current: Option<Prices>,
}

impl Parting {
    /// Nothing.
    pub(crate) fn new(alloc: Global) -> Self
        ensures { Shows result nothing }
    {
        Parting {
            stage: Stage::Blank,
            plain: Vec::new(alloc),
            root_prices: Vec::new(alloc),
            closed: Vec::new(alloc),
            current: None,
        }
    }

    /// Takes one line more, and says whether it may stand here as far as first words and prices tell.
    pub(crate) fn take(&mut self, alloc: Global, line: &[u8]) -> Result<bool, NoMemory>
        ensures { IfOk result (TakesNow self.old line.now self.new) }
    {
        match self.stage {
            Stage::Blank => self.take_version(line),
            Stage::Versioned => self.take_root(line),
            Stage::Begun => self.take_inside(alloc, line),
            Stage::Ended => Ok(false),
        }
    }

    /// Takes the first line.
    fn take_version(&mut self, line: &[u8]) -> Result<bool, NoMemory>
        requires { self.old.stage ≡ Blank }
        ensures { IfOk result (TakesNow self.old line.now self.new) }
    {
        if !is_version(line) {
            return Ok(false);
        }
        self.stage = Stage::Versioned;
        self.add_plain(b"JOPC 2")?;
        Ok(true)
    }

    /// Takes the second line.
    fn take_root(&mut self, line: &[u8]) -> Result<bool, NoMemory>
        requires { self.old.stage ≡ Versioned }
        ensures { IfOk result (TakesNow self.old line.now self.new) }
    {
        if !line.starts_with(b"root ") {
            return Ok(false);
        }
        self.stage = Stage::Begun;
        self.add_plain(line)?;
        Ok(true)
    }

    /// Takes a line behind the second.
    fn take_inside(&mut self, alloc: Global, line: &[u8]) -> Result<bool, NoMemory>
        requires { self.old.stage ≡ Begun }
        ensures { IfOk result (TakesNow self.old line.now self.new) }
    {
        match kind_of(line) {
            LineKind::OfPrice => self.take_price(line),
            LineKind::OfAlone => Ok(false),
            LineKind::OfSection => self.take_section(alloc, line),
            LineKind::OfBound => self.take_bound(line),
            LineKind::Other => self.take_other(line),
        }
    }

    /// Takes the line of a price behind the second line.
    fn take_price(&mut self, line: &[u8]) -> Result<bool, NoMemory>
        requires stage { self.old.stage ≡ Begun }
        requires kind { kind_of line.now ≡ OfPrice }
        ensures { IfOk result (TakesNow self.old line.now self.new) }
    {
        if self.current.is_some() {
            self.take_section_price(line)
        } else {
            self.take_root_price(line)
        }
    }

    /// Takes the line of a price in the root.
    fn take_root_price(&mut self, line: &[u8]) -> Result<bool, NoMemory>
        requires stage { self.old.stage ≡ Begun }
        requires kind { kind_of line.now ≡ OfPrice }
        requires none { self.old.current ≡ None }
        ensures { IfOk result (TakesNow self.old line.now self.new) }
    {
        let Some(next) = root_price_behind(&self.root_prices, line) else {
            return Ok(false);
        };
        self.root_prices.push(next)?;
        Ok(true)
    }

    /// Takes the line of a price of the last section.
    fn take_section_price(&mut self, line: &[u8]) -> Result<bool, NoMemory>
        requires stage { self.old.stage ≡ Begun }
        requires kind { kind_of line.now ≡ OfPrice }
        requires some { IsSome self.old.current }
        ensures { IfOk result (TakesNow self.old line.now self.new) }
    {
        let Some(current) = &mut self.current else {
            return Ok(false);
        };
        let Some(next) = price_behind(current.as_slice(), line) else {
            return Ok(false);
        };
        current.push(next)?;
        Ok(true)
    }

    /// Takes the line that begins a section.
    fn take_section(&mut self, alloc: Global, line: &[u8]) -> Result<bool, NoMemory>
        requires stage { self.old.stage ≡ Begun }
        requires kind { kind_of line.now ≡ OfSection }
        ensures { IfOk result (TakesNow self.old line.now self.new) }
    {
        self.close()?;
        self.current = Some(Prices::new(Vec::new(alloc)));
        self.add_plain(line)?;
        Ok(true)
    }

    /// Takes the last line.
    fn take_bound(&mut self, line: &[u8]) -> Result<bool, NoMemory>
        requires stage { self.old.stage ≡ Begun }
        requires kind { kind_of line.now ≡ OfBound }
        ensures { IfOk result (TakesNow self.old line.now self.new) }
    {
        self.close()?;
        self.stage = Stage::Ended;
        self.add_plain(line)?;
        Ok(true)
    }

    /// Takes another line of the last section, behind which no price stands yet.
    fn take_other(&mut self, line: &[u8]) -> Result<bool, NoMemory>
        requires stage { self.old.stage ≡ Begun }
        requires kind { kind_of line.now ≡ Other }
        ensures { IfOk result (TakesNow self.old line.now self.new) }
    {
        if !self.has_section_without_price() {
            return Ok(false);
        }
        self.add_plain(line)?;
        Ok(true)
    }

    /// The certificate without its prices, with them.
    pub(crate) fn into_cert(self, plain: Cert) -> PricedCert
        ensures { result ≡ record { plain = plain; root_prices = self.root_prices.items; prices = self.closed.items } }
    {
        PricedCert::new(plain, self.root_prices, self.closed)
    }

    /// Whether a section has begun, of which no price is read.
    fn has_section_without_price(&self) -> bool
        ensures { IsTrue result ↔ (self.now.current ≡ Some []) }
    {
        match &self.current {
            Some(prices) => prices.as_slice().is_empty(),
            None => false,
        }
    }

    /// Puts the prices of the last section behind the others.
    fn close(&mut self) -> Result<(), NoMemory>
        ensures { OnOk result (IsClosed self.old self.new) }
    {
        if let Some(current) = self.current.take() {
            self.closed.push(current)?;
        }
        Ok(())
    }

    /// Appends a line to those without prices.
    fn add_plain(&mut self, line: &[u8]) -> Result<(), NoMemory>
        ensures { OnOk result (AddsPlain self.old line.now self.new) }
    {
        self.plain.extend_from_slice(line)?;
        self.plain.push(b'\n')?;
        Ok(())
    }
}

/// The price that a line says, if it says one that stands behind all of these.
fn price_behind(prices: &[Price], line: &[u8]) -> Option<Price>
    ensures { Finds price_line (IsBehind prices.now) line.now result }
{
    let next = section_price(line)?;
    match prices.last() {
        Some(last) if !stands_before(*last, next) => None,
        _ => Some(next),
    }
}

/// The price in the root that a line says, if it says one that stands behind all of these.
fn root_price_behind(prices: &[RootPrice], line: &[u8]) -> Option<RootPrice>
    ensures { Finds root_price_line (IsBehindInRoot prices.now) line.now result }
{
    let next = root_price(line)?;
    match prices.last() {
        Some(last) if !is_less((last.method, last.node), (next.method, next.node)) => None,
        _ => Some(next),
    }
}

/// Whether the one price stands before the other in a section.
fn stands_before(price: Price, other: Price) -> bool
    ensures { IsTrue result ↔ StandsBefore price.node price.header other.node other.header }
{
    match (price.header, other.header) {
        (None, None) => price.node < other.node,
        (None, Some(_)) => true,
        (Some(_), None) => false,
        (Some(header), Some(next)) => is_less((price.node, header), (other.node, next)),
    }
}

/// Whether the first number is less, or the second one where the first is the same.
fn is_less(pair: (u32, u32), other: (u32, u32)) -> bool
    ensures { IsTrue result ↔ IsLess pair.0 pair.1 other.0 other.1 }
{
    pair.0 < other.0 || (pair.0 == other.0 && pair.1 < other.1)
}
