//! Ports and registers in a text.
ghost use Rattle.std.specs.Prelude.{◌≡◌, ◌++◌, OnOk, codes, flat_map};
ghost use Rattle.netlist_text.specs.Text.{each_from, input_text, output_text, given_text, put_text, register_text, next_text};

use crate::pieces::{put, put_behind, put_declared, put_given, put_number, put_range};
use base::NoMemory;
use netlist::{InputPort, OutputPort, Register};

/// Appends an input of the module.
fn put_input(out: &mut Vec<u8>, port: &InputPort) -> Result<(), NoMemory>
    ensures { OnOk result (out.new.items ≡ out.old.items ++ input_text port.now) }
{
    put(out, b",\n    input")?;
    put_range(out, port.width as u64)?;
    put(out, port.name.as_slice())?;
    Ok(())
}

/// Appends the inputs of the module.
pub fn put_inputs(out: &mut Vec<u8>, ports: &[InputPort]) -> Result<(), NoMemory>
    ensures { OnOk result (out.new.items ≡ out.old.items ++ flat_map input_text ports.now) }
{
    for port in ports {
        put_input(out, port)?;
    }
    Ok(())
}

/// Appends an output of the module.
fn put_output(out: &mut Vec<u8>, port: &OutputPort) -> Result<(), NoMemory>
    ensures { OnOk result (out.new.items ≡ out.old.items ++ output_text port.now) }
{
    put(out, b",\n    output")?;
    put_range(out, port.net.width as u64)?;
    put(out, port.name.as_slice())?;
    Ok(())
}

/// Appends the outputs of the module.
pub fn put_outputs(out: &mut Vec<u8>, ports: &[OutputPort]) -> Result<(), NoMemory>
    ensures { OnOk result (out.new.items ≡ out.old.items ++ flat_map output_text ports.now) }
{
    for port in ports {
        put_output(out, port)?;
    }
    Ok(())
}

/// Appends the input that a name stands for.
fn put_source(out: &mut Vec<u8>, port: &InputPort) -> Result<(), NoMemory>
    ensures { OnOk result (out.new.items ≡ out.old.items ++ (codes " = " ++ port.now.name ++ codes ";\n")) }
{
    put(out, b" = ")?;
    put(out, port.name.as_slice())?;
    put(out, b";\n")
}

/// Appends input k, under the name that expressions have for it.
fn put_given_input(out: &mut Vec<u8>, k: usize, port: &InputPort) -> Result<(), NoMemory>
    ensures { OnOk result (out.new.items ≡ out.old.items ++ given_text k port.now) }
{
    put_declared(out, b"    wire", port.width as u64, b"i", k)?;
    put_source(out, port)
}

/// Appends the inputs, under the names that expressions have for them.
pub fn put_given_inputs(out: &mut Vec<u8>, ports: &[InputPort]) -> Result<(), NoMemory>
    ensures { OnOk result (out.new.items ≡ out.old.items ++ each_from given_text 0 ports.now) }
{
    for (k, port) in ports.iter().enumerate() {
        put_given_input(out, k, port)?;
    }
    Ok(())
}

/// Appends what an output is.
fn put_assigned(out: &mut Vec<u8>, port: &OutputPort) -> Result<(), NoMemory>
    ensures { OnOk result (out.new.items ≡ out.old.items ++ put_text port.now) }
{
    put(out, b"    assign ")?;
    put(out, port.name.as_slice())?;
    put_behind(out, b" = ", &port.net)?;
    put(out, b";\n")?;
    Ok(())
}

/// Appends what the outputs are.
pub fn put_all_assigned(out: &mut Vec<u8>, ports: &[OutputPort]) -> Result<(), NoMemory>
    ensures { OnOk result (out.new.items ≡ out.old.items ++ flat_map put_text ports.now) }
{
    for port in ports {
        put_assigned(out, port)?;
    }
    Ok(())
}

/// Appends register k.
fn put_register(out: &mut Vec<u8>, k: usize, r: &Register) -> Result<(), NoMemory>
    ensures { OnOk result (out.new.items ≡ out.old.items ++ register_text k r.now) }
{
    put_declared(out, b"    reg", r.next.width as u64, b"r", k)?;
    put_given(out, b" = ", r.next.width as u64, r.first)
}

/// Appends the registers.
pub fn put_registers(out: &mut Vec<u8>, registers: &[Register]) -> Result<(), NoMemory>
    ensures { OnOk result (out.new.items ≡ out.old.items ++ each_from register_text 0 registers.now) }
{
    for (k, r) in registers.iter().enumerate() {
        put_register(out, k, r)?;
    }
    Ok(())
}

/// Appends what register k has next.
fn put_next(out: &mut Vec<u8>, k: usize, r: &Register) -> Result<(), NoMemory>
    ensures { OnOk result (out.new.items ≡ out.old.items ++ next_text k r.now) }
{
    put_number(out, b"        r", k as u64)?;
    put_behind(out, b" <= ", &r.next)?;
    put(out, b";\n")
}

/// Appends what the registers have next.
pub fn put_all_next(out: &mut Vec<u8>, registers: &[Register]) -> Result<(), NoMemory>
    ensures { OnOk result (out.new.items ≡ out.old.items ++ each_from next_text 0 registers.now) }
{
    for (k, r) in registers.iter().enumerate() {
        put_next(out, k, r)?;
    }
    Ok(())
}
