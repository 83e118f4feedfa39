//! Calls of methods, and what is shown of them.
ghost use Rattle.std.specs.Prelude.{◌<◌, length};

use call_regions::{CallFault, order};
use flow_table::find_method;
use method_flow::FlowProgram;
use std::alloc::{AllocError, Global};

/// The name of a method.
pub fn name_of(f: &FlowProgram, m: u32) -> &str {
    if m >= f.method_count() {
        return "no method";
    }
    match std::str::from_utf8(f.method(m).name()) {
        Ok(name) => name,
        Err(_) => "no text",
    }
}

/// Writes the names of methods, and ends the line.
pub fn show_names(out: &mut String, f: &FlowProgram, methods: &[u32]) -> Result<(), AllocError> {
    for m in methods {
        write!(out, " {}", name_of(f, *m))?;
    }
    writeln!(out, "")
}

/// Writes what each call of a method may run.
pub fn show_calls(out: &mut String, f: &FlowProgram, m: u32) -> Result<(), AllocError>
    requires { m < length f.now.methods }
{
    // The form of the table says that each call names a list.
    let _count = f.method_count();
    for call in f.method(m).calls() {
        write!(out, "  call {}:", call.place)?;
        show_names(out, f, f.targets(*call))?;
    }
    Ok(())
}

/// Whether each of some methods is marked.
fn are_marked(marks: &[bool], methods: &[u32]) -> bool {
    for m in methods {
        if marks.get(*m as usize) != Some(&true) {
            return false;
        }
    }
    true
}

/// Whether each method stands behind all that its calls may run.
fn is_targets_first(alloc: Global, f: &FlowProgram, methods: &[u32]) -> Result<bool, AllocError> {
    let mut earlier = vec![in alloc; false; f.method_count() as usize]?;
    for m in methods {
        if *m >= f.method_count() {
            return Ok(false);
        }
        for call in f.method(*m).calls() {
            if !are_marked(&earlier, f.targets(*call)) {
                return Ok(false);
            }
        }
        earlier[*m as usize] = true;
    }
    Ok(true)
}

/// Turns a cycle of calls so that its least number comes first.
fn turn_to_least(cycle: &mut [u32]) {
    let (mut place, mut least) = (0, u32::MAX);
    for (i, m) in cycle.iter().enumerate() {
        if *m < least {
            (place, least) = (i, *m);
        }
    }
    // The bound is for the proof: a least place is one of the list.
    cycle.rotate_left(place.min(cycle.len()));
}

/// Writes the names of methods behind a title.
fn titled(
    alloc: Global,
    title: &str,
    f: &FlowProgram,
    root: &str,
    methods: &[u32],
) -> Result<String, AllocError> {
    let mut out = format!(in alloc; "{title} {root}:")?;
    show_names(&mut out, f, methods)?;
    Ok(out)
}

/// The methods of an order, by number.
fn sorted_text(
    alloc: Global,
    f: &FlowProgram,
    root: &str,
    methods: &mut [u32],
) -> Result<String, AllocError> {
    let title = if is_targets_first(alloc, f, methods)? {
        "order"
    } else {
        "no order"
    };
    methods.sort_unstable();
    titled(alloc, title, f, root, methods)
}

/// The methods that run while a named one does, by number, where there is an order of them; else the cycle of calls from its least
/// number on.
pub fn order_text(alloc: Global, f: &FlowProgram, root: &str) -> Result<String, AllocError> {
    let Some(m) = find_method(f, root.as_bytes()) else {
        return titled(alloc, "no method", f, root, &[]);
    };
    match order(alloc, f, m) {
        Ok(order) => sorted_text(alloc, f, root, &mut order.methods.into_vec()),
        Err(CallFault::Recursion(cycle)) => {
            let mut methods = cycle.into_vec();
            turn_to_least(&mut methods);
            titled(alloc, "recursion", f, root, &methods)
        }
        Err(CallFault::NoMemory) => Err(AllocError),
    }
}
