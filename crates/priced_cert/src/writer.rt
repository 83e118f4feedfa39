//! Certificates of version 3 written as texts: the lines of prices are put among those of the certificate of version 2.
ghost use Rattle.std.specs.Prelude.{◌≡◌, ◌++◌, [], decimal, flat_map, drop, slice_index_or, IfOk, OnOk};
ghost use Rattle.certificates.specs.CertLines.{node_text};
ghost use Rattle.priced_cert.specs.Prices.{per_text};
ghost use Rattle.priced_cert.specs.Certificate.{IsPricedInGrammar};
ghost use Rattle.priced_cert.specs.Texts.{priced_text, fed_line};
ghost use Rattle.priced_cert.specs.Weaving.{woven, price_fed, root_price_fed};

use crate::cert::PricedCert;
use crate::kind::{LineKind, kind_of};
use crate::prices::{Price, Prices, RootPrice};
use ascii_text::{Lines, lines, put_u64};
use base::NoMemory;
use certificates::write_cert;
use std::alloc::Global;

/// The text of a certificate.
pub fn write_priced_cert(alloc: Global, c: &PricedCert) -> Result<Vec<u8>, NoMemory>
    requires { IsPricedInGrammar c.now }
    ensures { IfOk result (λ text. text.items ≡ priced_text c.now) }
{
    let plain = write_cert(alloc, c.plain())?;
    // The first two lines are written anew: the version is another one.
    let mut left = lines(plain.as_slice());
    left.next();
    left.next();
    let mut out = Vec::new(alloc);
    put_line(&mut out, b"JOPC 3")?;
    put_number(&mut out, b"root ", u64::from(c.plain().root()))?;
    out.push(b'\n')?;
    put_root_prices(&mut out, c.root_prices())?;
    weave(&mut out, left, c.prices())?;
    Ok(out)
}

/// Appends the lines behind the root's, and those of the prices of each section behind its own.
fn weave(out: &mut Vec<u8>, left: Lines<'_>, prices: &[Prices]) -> Result<(), NoMemory>
    ensures { OnOk result (out.new.items ≡ out.old.items ++ flat_map fed_line (woven [] left.entry prices.now)) }
{
    let mut held: &[Price] = &[];
    let mut others = prices;
    for line in left {
        match kind_of(line) {
            LineKind::OfSection => {
                put_prices(out, held)?;
                (held, others) = first_of(others);
            }
            LineKind::OfBound => {
                put_prices(out, held)?;
                held = &[];
            }
            _ => {}
        }
        put_line(out, line)?;
    }
    Ok(())
}

/// The prices of the first section, and of the others.
fn first_of(prices: &[Prices]) -> (&[Price], &[Prices])
    ensures first { result.0.now ≡ slice_index_or prices.now 0 [] }
    ensures others { result.1.now ≡ drop 1 prices.now }
{
    match prices {
        [first, others @ ..] => (first.as_slice(), others),
        [] => (&[], prices),
    }
}

/// Appends a line and its line feed.
fn put_line(out: &mut Vec<u8>, line: &[u8]) -> Result<(), NoMemory>
    ensures { OnOk result (out.new.items ≡ out.old.items ++ fed_line line.now) }
{
    out.extend_from_slice(line)?;
    out.push(b'\n')?;
    Ok(())
}

/// Appends the lines of prices in the root.
fn put_root_prices(out: &mut Vec<u8>, prices: &[RootPrice]) -> Result<(), NoMemory>
    ensures { OnOk result (out.new.items ≡ out.old.items ++ flat_map root_price_fed prices.now) }
{
    for price in prices {
        put_root_price(out, *price)?;
    }
    Ok(())
}

/// Appends the line of a price in the root.
fn put_root_price(out: &mut Vec<u8>, price: RootPrice) -> Result<(), NoMemory>
    ensures { OnOk result (out.new.items ≡ out.old.items ++ root_price_fed price) }
{
    put_number(out, b"price ", u64::from(price.method))?;
    out.push(b' ')?;
    put_node(out, price.node)?;
    put_number(out, b" ", price.price)?;
    out.push(b'\n')?;
    Ok(())
}

/// Appends the lines of prices of a section.
fn put_prices(out: &mut Vec<u8>, prices: &[Price]) -> Result<(), NoMemory>
    ensures { OnOk result (out.new.items ≡ out.old.items ++ flat_map price_fed prices.now) }
{
    for price in prices {
        put_price(out, *price)?;
    }
    Ok(())
}

/// Appends the line of a price of a section.
fn put_price(out: &mut Vec<u8>, price: Price) -> Result<(), NoMemory>
    ensures { OnOk result (out.new.items ≡ out.old.items ++ price_fed price) }
{
    out.extend_from_slice(b"price ")?;
    put_node(out, price.node)?;
    put_number(out, b" ", price.price)?;
    put_header(out, price.header)?;
    out.push(b'\n')?;
    Ok(())
}

/// Appends a header, if there is one, behind `per`.
fn put_header(out: &mut Vec<u8>, header: Option<u32>) -> Result<(), NoMemory>
    ensures { OnOk result (out.new.items ≡ out.old.items ++ per_text header) }
{
    match header {
        Some(header) => put_number(out, b" per ", u64::from(header / 2)),
        None => Ok(()),
    }
}

/// Appends a node.
fn put_node(out: &mut Vec<u8>, u: u32) -> Result<(), NoMemory>
    ensures { OnOk result (out.new.items ≡ out.old.items ++ node_text u) }
{
    put_u64(out, u64::from(u / 2))?;
    if u % 2 == 1 {
        out.push(b'r')?;
    }
    Ok(())
}

/// Appends a text and a number behind it.
fn put_number(out: &mut Vec<u8>, text: &[u8], number: u64) -> Result<(), NoMemory>
    ensures { OnOk result (out.new.items ≡ out.old.items ++ (text.now ++ decimal number)) }
{
    out.extend_from_slice(text)?;
    put_u64(out, number)
}
