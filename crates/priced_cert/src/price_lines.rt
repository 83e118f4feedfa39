//! Lines of prices read.
ghost use Rattle.certificates.specs.Finding.{Finds};
ghost use Rattle.priced_cert.specs.Prices.{price_line, price_text, root_price_line, root_price_text, visit_text, fee_text};
ghost use Rattle.priced_cert.specs.Prices.{IsPriceInRange, IsRootPriceInRange, IsVisit, IsFee};

use crate::prices::{Price, RootPrice};
use crate::words::{cut, header, method, node, price};

/// The price in the root that a line says, if it says one.
pub(crate) fn root_price(line: &[u8]) -> Option<RootPrice>
    ensures { Finds root_price_line IsRootPriceInRange line.now result }
{
    root_price_of(line.strip_prefix(b"price ")?)
}

/// The price in the root that the text is, if it is one.
fn root_price_of(text: &[u8]) -> Option<RootPrice>
    ensures { Finds root_price_text IsRootPriceInRange text.now result }
{
    let (method_word, rest) = cut(text)?;
    let method = method(method_word)?;
    let (node, price) = node_and_price(rest)?;
    Some(RootPrice {
        method,
        node,
        price,
    })
}

/// The node and the price that the text is, if it is these.
fn node_and_price(text: &[u8]) -> Option<(u32, u64)>
    ensures { Finds visit_text IsVisit text.now result }
{
    let (node_word, price_word) = cut(text)?;
    Some((node(node_word)?, price(price_word)?))
}

/// The price of a section that a line says, if it says one.
pub(crate) fn section_price(line: &[u8]) -> Option<Price>
    ensures { Finds price_line IsPriceInRange line.now result }
{
    price_of(line.strip_prefix(b"price ")?)
}

/// The price of a section that the text is, if it is one.
fn price_of(text: &[u8]) -> Option<Price>
    ensures { Finds price_text IsPriceInRange text.now result }
{
    let (node_word, rest) = cut(text)?;
    let node = node(node_word)?;
    let (price, header) = price_and_header(rest)?;
    Some(Price {
        node,
        header,
        price,
    })
}

/// The price and the header behind it, if there is one, that the text is, if it is these.
fn price_and_header(text: &[u8]) -> Option<(u64, Option<u32>)>
    ensures { Finds fee_text IsFee text.now result }
{
    match cut(text) {
        Some((price_word, per)) => Some((price(price_word)?, Some(header(per)?))),
        None => Some((price(text)?, None)),
    }
}
