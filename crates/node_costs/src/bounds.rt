//! The bounds of loops, by the places and the nodes of their headers.
ghost use Rattle.std.specs.Prelude.{◌≡◌, ◌<◌, length, map, IfOk};
ghost use Rattle.node_costs.specs.Costs.{bounds_of, bound_of_node};

use base::NoMemory;
use bound_texts::loops::Bounds;
use method_flow::FlowProgram;
use std::alloc::Global;

/// How often the loop of a method goes round at most whose header is the instruction at this place, where a line says so.
pub fn bound_at(f: &FlowProgram, b: &Bounds, m: u32, pc: u32) -> Option<u32>
    requires { m < length f.now.methods }
    ensures { result ≡ bounds_of f.now b.now m pc }
{
    b.bound(f.method(m).name(), pc)
}

/// The bounds of the loops of a method with these headers, which are numbers of nodes: a raise step has none.
pub fn bounds_of_headers(
    alloc: Global,
    f: &FlowProgram,
    b: &Bounds,
    m: u32,
    headers: &[u32],
) -> Result<Vec<Option<u32>>, NoMemory>
    requires { m < length f.now.methods }
    ensures { IfOk result (λ bounds. bounds.items ≡ map (bound_of_node f.now b.now m) headers.now) }
{
    let mut bounds = Vec::new(alloc);
    for header in headers {
        bounds.push(bound_of_header(f, b, m, *header))?;
    }
    Ok(bounds)
}

/// The bound of the loop whose header is this node.
fn bound_of_header(f: &FlowProgram, b: &Bounds, m: u32, header: u32) -> Option<u32>
    requires { m < length f.now.methods }
    ensures { result ≡ bound_of_node f.now b.now m header }
{
    if header % 2 == 0 {
        bound_at(f, b, m, header / 2)
    } else {
        None
    }
}
