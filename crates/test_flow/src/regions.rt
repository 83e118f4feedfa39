//! The methods that may run while a method or a loop does, and what is shown of them.
ghost use Rattle.std.specs.Prelude.{◌<◌, length};

use crate::calls::show_names;
use base::NoMemory;
use call_regions::{Region, loop_region, region};
use method_flow::FlowProgram;
use std::alloc::Global;
use test_rows::RowFault;

/// The caches, as blocks and words of a block, of which it is said whether a region fits them.
const CACHES: [(u32, u32); 4] = [(1, 8), (2, 16), (16, 4), (16, 64)];

/// The blocks, and the words of a block, of a cache that each region fits.
const GREATEST: (u32, u32) = (1024, 1024);

/// The region of a method, or of the loop of these members of it.
fn region_of(
    alloc: Global,
    f: &FlowProgram,
    m: u32,
    members: Option<&[u32]>,
    cache: (u32, u32),
) -> Result<Region, NoMemory>
    requires method { m < length f.now.methods }
    requires words { 0 < cache.1 }
{
    let (blocks, block_words) = cache;
    match members {
        None => region(alloc, f, m, blocks, block_words),
        Some(members) => loop_region(alloc, f, m, members, blocks, block_words),
    }
}

/// Writes the region of a method, or of the loop of these members of it, and the caches that it fits.
pub fn show_regions(
    alloc: Global,
    out: &mut String,
    f: &FlowProgram,
    m: u32,
    members: Option<&[u32]>,
    indent: &str,
) -> Result<(), RowFault>
    requires { m < length f.now.methods }
{
    let Region::Fits(methods) = region_of(alloc, f, m, members, GREATEST)? else {
        return Ok(writeln!(out, "{indent}  exceeds")?);
    };
    write!(out, "{indent}  region")?;
    show_names(out, f, methods.as_slice())?;
    write!(out, "{indent}  fits")?;
    for cache in CACHES {
        match region_of(alloc, f, m, members, cache)? {
            Region::Exceeds => {}
            Region::Fits(same) if same.as_slice() == methods.as_slice() => {
                write!(out, " {}x{}", cache.0, cache.1)?;
            }
            Region::Fits(_) => write!(out, " others")?,
        }
    }
    Ok(writeln!(out, "")?)
}
