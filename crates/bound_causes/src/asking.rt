//! Which method a name asks for.
ghost use Rattle.std.specs.Prelude.{◌<◌, ◌↔◌, length, IsTrue, IfSome};
ghost use Rattle.section_check.specs.Least.{IsLeast};
ghost use Rattle.bytecode_model.specs.Program.{Program};
ghost use Rattle.method_flow.specs.Flow.{IsFlowOf};
ghost use Rattle.bound_rules.specs.Bounding.{IsAsked};
ghost use Rattle.bound_causes.specs.Naming.{IsNamedBy, IsAskedIn};

use method_flow::FlowProgram;

/// Whether a method has the name, and isn't the one that starts the program.
fn is_asked(f: &FlowProgram, name: &[u8], m: u32) -> bool
    requires { m < length f.now.methods }
    ensures { IsTrue result ↔ IsAskedIn f.now name.now m }
{
    m != f.boot() && f.method(m).name() == name
}

/// The first method of this name: its class's name, a dot, its own name and its descriptor. The one that starts the program
/// isn't asked for.
pub fn asked(f: &FlowProgram, name: &[u8]) -> Option<u32>
    ensures first { IsLeast (IsAskedIn f.now name.now) result }
    ensures asked { (P : Program) → IsFlowOf P f.now → IsLeast (IsAsked P (IsNamedBy f.now name.now)) result }
    ensures known { IfSome result (λ m. m < length f.now.methods) }
{
    for m in 0..f.method_count() {
        if is_asked(f, name, m) {
            return Some(m);
        }
    }
    None
}
