//! The module of a netlist, part by part.
ghost use Rattle.std.specs.Prelude.{◌≡◌, ◌++◌, IfOk, OnOk};
ghost use Rattle.netlist_text.specs.Text.{text_of, head_text, state_text, edge_text};

use crate::lines::{
    put_all_assigned, put_all_next, put_given_inputs, put_inputs, put_outputs, put_registers,
};
use crate::pieces::put;
use crate::rams::{put_rams, put_reads, put_writes};
use crate::wires::put_wires;
use base::NoMemory;
use netlist::Netlist;
use std::alloc::Global;

/// The text of a netlist, one module of Verilog. Where the netlist is well formed, both sides of each assignment have one width.
pub fn write_netlist(alloc: Global, n: &Netlist) -> Result<Vec<u8>, NoMemory>
    ensures { IfOk result (λ text. text.items ≡ text_of n.now) }
{
    let mut out = Vec::new(alloc);
    put_netlist(&mut out, n)?;
    Ok(out)
}

/// Appends the text of a netlist.
fn put_netlist(out: &mut Vec<u8>, n: &Netlist) -> Result<(), NoMemory>
    ensures { OnOk result (out.new.items ≡ out.old.items ++ text_of n.now) }
{
    put_head(out, n)?;
    put_state(out, n)?;
    put_wires(out, n.wires.as_slice())?;
    put_all_assigned(out, n.outputs.as_slice())?;
    put_edge(out, n)?;
    put(out, b"endmodule\n")?;
    Ok(())
}

/// Appends where the module begins: its name and its ports.
fn put_head(out: &mut Vec<u8>, n: &Netlist) -> Result<(), NoMemory>
    ensures { OnOk result (out.new.items ≡ out.old.items ++ head_text n.now) }
{
    put(out, b"module ")?;
    put(out, n.name.as_slice())?;
    put(out, b"(\n    input clk")?;
    put_inputs(out, n.inputs.as_slice())?;
    put_outputs(out, n.outputs.as_slice())?;
    put(out, b"\n);\n")?;
    Ok(())
}

/// Appends inputs, registers and block RAMs.
fn put_state(out: &mut Vec<u8>, n: &Netlist) -> Result<(), NoMemory>
    ensures { OnOk result (out.new.items ≡ out.old.items ++ state_text n.now) }
{
    put_given_inputs(out, n.inputs.as_slice())?;
    put_registers(out, n.registers.as_slice())?;
    put_rams(out, n.memories.as_slice())?;
    Ok(())
}

/// Appends what happens at the clock's edge.
fn put_edge(out: &mut Vec<u8>, n: &Netlist) -> Result<(), NoMemory>
    ensures { OnOk result (out.new.items ≡ out.old.items ++ edge_text n.now) }
{
    put(out, b"    always @(posedge clk) begin\n")?;
    put_all_next(out, n.registers.as_slice())?;
    put_writes(out, n.memories.as_slice())?;
    put_reads(out, n.memories.as_slice())?;
    put(out, b"    end\n")?;
    Ok(())
}
