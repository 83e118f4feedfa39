//! Casts, tests of classes and monitors (JVM Specification SE 8, 4.10.1.9).
ghost use Rattle.std.specs.Prelude.{◌≡◌, IfOk};
ghost use Rattle.bytecode_model.specs.Rows as rows;
ghost use Rattle.program_tables.specs.Tables.{kind_seen};
ghost use Rattle.verifier_types.specs.Site.{Site, ChecksSite};

use crate::checked::{Checked, Rule, uses};
use crate::frame::TypeFrame;
use crate::types::VarType;
use base::NoMemory;
use program_tables::ObjectKind;

/// `checkcast`.
pub fn check_cast(frame: &mut TypeFrame, kind: ObjectKind) -> Result<Checked, NoMemory>
    ensures { IfOk result (λ c. (s : Site) → ChecksSite s (rows.Cast (kind_seen kind)) frame.old c frame.new) }
{
    match frame.operands.pop_reference() {
        Some(item) => {
            frame.operands.push(VarType::Reference(kind))?;
            Ok(uses(item))
        }
        None => Ok(Checked::Fails(Rule::Stack)),
    }
}

/// `instanceof`.
pub fn check_test(frame: &mut TypeFrame, kind: ObjectKind) -> Result<Checked, NoMemory>
    ensures { IfOk result (λ c. (s : Site) → ChecksSite s (rows.Test (kind_seen kind)) frame.old c frame.new) }
{
    match frame.operands.pop_reference() {
        Some(item) => {
            frame.operands.push(VarType::Integer)?;
            Ok(uses(item))
        }
        None => Ok(Checked::Fails(Rule::Stack)),
    }
}

/// `monitorenter` and `monitorexit`.
pub fn check_monitor(frame: &mut TypeFrame) -> Checked
    ensures { (s : Site) → ChecksSite s rows.Monitor frame.old result frame.new }
{
    match frame.operands.pop_reference() {
        Some(item) => uses(item),
        None => Checked::Fails(Rule::Stack),
    }
}
