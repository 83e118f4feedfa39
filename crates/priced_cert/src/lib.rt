//! Certificates of version 3, which have prices of facts, and their texts: one spelling for each.
//!
//! A text has a line each for the version, `JOPC 3`, and for the method, `root M`. Then come lines `price M PC LAMBDA`, of
//! facts that count in an activation of that method, by method and node, and sections as in version 2, but of the kind
//! alone. Behind the loops of each section stand lines `price PC LAMBDA`, of facts that count in an activation of its
//! method, by node, and lines `price PC LAMBDA per PC2`, of facts that count from each entry of the loop with its header at
//! PC2 to the next, by node and header. The last line is `bound N` or `bound never`. PC has an `r` behind it for a raise
//! step, PC and PC2 are at most 2,147,483,647, M is at most 4,294,967,295, and LAMBDA is from 1 to 2^64 - 1.
#![tactic(auto)]

mod cert;
mod kind;
mod laws;
mod parting;
mod price_lines;
mod prices;
mod reader;
mod words;
mod writer;

pub use cert::PricedCert;
pub use laws::{has_one_priced_certificate, is_priced_read_back, versions_are_apart};
pub use prices::{Price, Prices, RootPrice};
pub use reader::{is_priced, read_priced_cert};
pub use writer::write_priced_cert;
