//! Wires in a text.
ghost use Rattle.std.specs.Prelude.{◌≡◌, ◌+◌, ◌++◌, ◌-◌, OnOk, codes, decimal};
ghost use Rattle.netlist_text.specs.Text.{declared_text, each_from, net_text, range_text, operator_text, expression_text};
ghost use Rattle.netlist_text.specs.Text.{function_text, row_text, table_text, wire_line, wire_text};

use crate::pieces::{
    put, put_behind, put_declared, put_given, put_net, put_number, put_range, put_word,
};
use base::NoMemory;
use netlist::{BinaryOperator, Expression, Net};

/// An operator between blanks.
fn operator_text(operator: BinaryOperator) -> &'static [u8]
    ensures { result.now ≡ operator_text operator }
{
    match operator {
        BinaryOperator::And => b" & ",
        BinaryOperator::Or => b" | ",
        BinaryOperator::Xor => b" ^ ",
        BinaryOperator::Add => b" + ",
        BinaryOperator::Sub => b" - ",
        BinaryOperator::Mul => b" * ",
        BinaryOperator::Equal => b" == ",
        BinaryOperator::Less => b" < ",
        BinaryOperator::Left => b" << ",
        BinaryOperator::Right => b" >> ",
    }
}

/// Appends an operator with its operands.
fn put_binary(out: &mut Vec<u8>, operator: BinaryOperator, x: &Net, y: &Net) -> Result<(), NoMemory>
    ensures { OnOk result (out.new.items ≡ out.old.items ++ (net_text x.now ++ operator_text operator ++ net_text y.now)) }
{
    put_net(out, x)?;
    put_behind(out, operator_text(operator), y)
}

/// The highest of so many bits from one on.
fn high_bit(low: u32, width: u32) -> u64
    ensures { result ≡ low + width - 1 }
{
    (low as u64 + width as u64).saturating_sub(1)
}

/// Appends a part of a net: so many bits from one on.
fn put_part(out: &mut Vec<u8>, x: &Net, low: u32, width: u32) -> Result<(), NoMemory>
    ensures { OnOk result (out.new.items ≡ out.old.items
        ++ (net_text x.now ++ codes "[" ++ decimal (low + width - 1) ++ codes ":" ++ decimal low ++ codes "]")) }
{
    put_net(out, x)?;
    put_number(out, b"[", high_bit(low, width))?;
    put_number(out, b":", low as u64)?;
    put(out, b"]")?;
    Ok(())
}

/// Appends two nets that are joined.
fn put_join(out: &mut Vec<u8>, x: &Net, y: &Net) -> Result<(), NoMemory>
    ensures { OnOk result (out.new.items ≡ out.old.items
        ++ (codes "{" ++ net_text x.now ++ codes ", " ++ net_text y.now ++ codes "}")) }
{
    put_behind(out, b"{", x)?;
    put_behind(out, b", ", y)?;
    put(out, b"}")
}

/// Appends a choice.
fn put_choose(out: &mut Vec<u8>, c: &Net, x: &Net, y: &Net) -> Result<(), NoMemory>
    ensures { OnOk result (out.new.items ≡ out.old.items
        ++ (net_text c.now ++ codes " ? " ++ net_text x.now ++ codes " : " ++ net_text y.now)) }
{
    put_net(out, c)?;
    put_behind(out, b" ? ", x)?;
    put_behind(out, b" : ", y)
}

/// Appends a row of the table of wire k, at a net.
fn put_lookup(out: &mut Vec<u8>, k: usize, x: &Net) -> Result<(), NoMemory>
    ensures { OnOk result (out.new.items ≡ out.old.items
        ++ (codes "t" ++ decimal k ++ codes "(" ++ net_text x.now ++ codes ")")) }
{
    put_number(out, b"t", k as u64)?;
    put_behind(out, b"(", x)?;
    put(out, b")")
}

/// Appends the expression of wire k.
fn put_expression(out: &mut Vec<u8>, k: usize, e: &Expression) -> Result<(), NoMemory>
    ensures { OnOk result (out.new.items ≡ out.old.items ++ expression_text k e.now) }
{
    match e {
        Expression::Not(x) => put_behind(out, b"~", x),
        Expression::Binary(operator, x, y) => put_binary(out, *operator, x, y),
        Expression::Part(x, low, width) => put_part(out, x, *low, *width),
        Expression::Join(x, y) => put_join(out, x, y),
        Expression::Choose(c, x, y) => put_choose(out, c, x, y),
        Expression::Table(x, _, _) => put_lookup(out, k, x),
    }
}

/// Appends a row of the table of wire k.
fn put_row(
    out: &mut Vec<u8>,
    k: usize,
    place_width: u32,
    width: u32,
    row: usize,
    word: u64,
) -> Result<(), NoMemory>
    ensures { OnOk result (out.new.items ≡ out.old.items ++ row_text k place_width width row word) }
{
    put(out, b"            ")?;
    put_word(out, place_width as u64, row as u64)?;
    put_number(out, b": t", k as u64)?;
    put_given(out, b" = ", width as u64, word)?;
    Ok(())
}

/// Appends the rows of the table of wire k.
fn put_rows(
    out: &mut Vec<u8>,
    k: usize,
    place_width: u32,
    width: u32,
    rows: &[u64],
) -> Result<(), NoMemory>
    ensures { OnOk result (out.new.items ≡ out.old.items ++ each_from (row_text k place_width width) 0 rows.now) }
{
    for (row, word) in rows.iter().enumerate() {
        put_row(out, k, place_width, width, row, *word)?;
    }
    Ok(())
}

/// Appends the place of a function, and where its rows begin.
fn put_place(out: &mut Vec<u8>, place_width: u32) -> Result<(), NoMemory>
    ensures { OnOk result (out.new.items ≡ out.old.items
        ++ (codes ";\n        input" ++ range_text place_width ++ codes "place;\n        case (place)\n")) }
{
    put(out, b";\n        input")?;
    put_range(out, place_width as u64)?;
    put(out, b"place;\n        case (place)\n")
}

/// Appends where the function of the table of wire k begins.
fn put_head(out: &mut Vec<u8>, k: usize, place_width: u32, width: u32) -> Result<(), NoMemory>
    ensures { OnOk result (out.new.items ≡ out.old.items
        ++ (declared_text (codes "    function") width (codes "t") k
        ++ (codes ";\n        input" ++ range_text place_width ++ codes "place;\n        case (place)\n"))) }
{
    put_declared(out, b"    function", width as u64, b"t", k)?;
    put_place(out, place_width)
}

/// Appends the function of the table of wire k.
fn put_function(
    out: &mut Vec<u8>,
    k: usize,
    x: &Net,
    width: u32,
    rows: &[u64],
) -> Result<(), NoMemory>
    ensures { OnOk result (out.new.items ≡ out.old.items ++ function_text k x.now width rows.now) }
{
    put_head(out, k, x.width, width)?;
    put_rows(out, k, x.width, width, rows)?;
    put(out, b"        endcase\n    endfunction\n")
}

/// Appends the table of wire k, if it has one.
fn put_table(out: &mut Vec<u8>, k: usize, e: &Expression) -> Result<(), NoMemory>
    ensures { OnOk result (out.new.items ≡ out.old.items ++ table_text k e.now) }
{
    match e {
        Expression::Table(x, width, rows) => put_function(out, k, x, *width, rows.as_slice()),
        _ => Ok(()),
    }
}

/// Appends what wire k is.
fn put_definition(out: &mut Vec<u8>, k: usize, e: &Expression) -> Result<(), NoMemory>
    ensures { OnOk result (out.new.items ≡ out.old.items ++ (codes " = " ++ expression_text k e.now ++ codes ";\n")) }
{
    put(out, b" = ")?;
    put_expression(out, k, e)?;
    put(out, b";\n")
}

/// Appends the line of wire k.
fn put_line(out: &mut Vec<u8>, k: usize, e: &Expression) -> Result<(), NoMemory>
    ensures { OnOk result (out.new.items ≡ out.old.items ++ wire_line k e.now) }
{
    put_declared(out, b"    wire", e.width(), b"w", k)?;
    put_definition(out, k, e)
}

/// Appends wire k.
fn put_wire(out: &mut Vec<u8>, k: usize, e: &Expression) -> Result<(), NoMemory>
    ensures { OnOk result (out.new.items ≡ out.old.items ++ wire_text k e.now) }
{
    put_table(out, k, e)?;
    put_line(out, k, e)
}

/// Appends the wires.
pub fn put_wires(out: &mut Vec<u8>, wires: &[Expression]) -> Result<(), NoMemory>
    ensures { OnOk result (out.new.items ≡ out.old.items ++ each_from wire_text 0 wires.now) }
{
    for (k, wire) in wires.iter().enumerate() {
        put_wire(out, k, wire)?;
    }
    Ok(())
}
