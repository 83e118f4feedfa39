//! The check of the last line of a certificate.
ghost use Rattle.std.specs.Prelude.{◌≡◌, ◌↔◌, ◌<◌, ◌^◌, IfErr, IfSome, IsTrue, OnOk, length};
ghost use Rattle.bytecode_model.specs.Program.{Program};
ghost use Rattle.method_flow.specs.Flow.{IsFlowOf};
ghost use Rattle.bound_rules.specs.Conditions.{IsRight};
ghost use Rattle.cert_checker.specs.Section.{LastFailsFor, LastMeetsFor};

use super::task::Task;
use super::telling::full;
use super::values::Values;
use bound_rules::CheckFault;
use certificates::Cert;
use node_costs::printed;

/// Whether the last line is what is printed where the root's number with all loads is this, and a certificate can hold that.
fn is_right(task: &Task<'_>, full: Option<u128>, bound: Option<u64>) -> bool
    requires { IfSome full (λ n. n < 2 ^ 65) }
    ensures { (P : Program) → IsFlowOf P task.now.flow → IsTrue result ↔ IsRight P task.now.timing full bound }
{
    bound_rules::laws::printed_is_told();
    let full = match full {
        Some(full) => {
            if full > u128::from(u64::MAX) {
                return false;
            }
            Some(full as u64)
        }
        None => None,
    };
    match (printed(task.flow(), task.timing(), full), bound) {
        (Some(printed), Some(bound)) => printed == u128::from(bound),
        (None, None) => true,
        _ => false,
    }
}

/// Checks the root and the last line, behind sections whose values these are.
pub fn check_last(task: &Task<'_>, values: &Values, c: &Cert) -> Result<(), CheckFault>
    requires { values.now.methods ≡ length task.now.flow.methods }
    ensures met { OnOk result (LastMeetsFor task.now values.now.valued c.now) }
    ensures fails { IfErr result (LastFailsFor task.now values.now.valued c.now) }
{
    let root = c.root();
    if root >= task.flow().method_count() {
        return Err(CheckFault::Missing(root));
    }
    let Some(full) = full(task, values, root) else {
        return Err(CheckFault::Missing(root));
    };
    if is_right(task, full, c.bound()) {
        Ok(())
    } else {
        Err(CheckFault::Region(root))
    }
}
