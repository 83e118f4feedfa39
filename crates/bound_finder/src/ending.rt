//! What is answered of a method, once all that may run while it does is found.
ghost use Rattle.std.specs.Prelude.{◌≡◌, ◌≢◌, ◌<◌, ◌≤◌, length, All, Some, IfNone, IfOk, IfErr, IfSome};
ghost use Rattle.certificates.specs.declared.lines.line.SectionKind.TheVariants.{Alone};
ghost use Rattle.certificates.specs.Certificate.{IsInGrammar};
ghost use Rattle.bound_rules.specs.Bounding.{KeepSize};
ghost use Rattle.bound_rules.specs.Conditions.{MeetsConditions};
ghost use Rattle.bound_rules.specs.Numbers.{IsPrinted};
ghost use Rattle.compact_walks.specs.Limited.{cycles_limit};
ghost use Rattle.bound_finder.specs.Certified.{AreEmptyIfEndless};
ghost use Rattle.bound_finder.specs.Ending.{AreKnownWithin, AreReadyFound, IsMethodBound, IsPastLimit, IsPrintedBy, IsPrintedSmall};
ghost use Rattle.bound_finder.specs.Known.{bounds_in, ForEach};
ghost use Rattle.bound_finder.specs.Ready.{IsSizeCause};

use super::known::Known;
use super::methods::{Methods, lesser};
use super::task::Task;
use bound_rules::BoundRefusal;
use certificates::Cert;

/// What `bound` answers of a method.
#[derive(Clone, Copy)]
pub enum MethodBound {
    /// So many cycles are printed of it, or that it can't end.
    Printed(Option<u64>),
    /// A number is past 64 bits, and this is the least of all methods that may run of which one is.
    TooLarge(u32),
}

/// A number, where it is within 64 bits.
fn narrowed(n: u128) -> Option<u64>
    ensures some { IfSome result (λ x. x ≡ n) }
    ensures none { IfNone result (cycles_limit ≤ n) }
{
    if n <= u64::MAX as u128 {
        Some(n as u64)
    } else {
        None
    }
}

/// What is printed of a method whose number with all loads is this, or none where that is past 64 bits.
fn printed_small(task: &Task<'_>, full: Option<u64>) -> Option<Option<u64>>
    ensures some { IfSome result (IsPrintedSmall task.now full) }
    ensures none { IfNone result (IsPastLimit task.now full) }
{
    match task.printed(full) {
        Some(n) => match narrowed(n) {
            Some(n) => Some(Some(n)),
            None => None,
        },
        None => Some(None),
    }
}

/// What is printed of a method whose number with all loads is this, or none where one of them is past 64 bits.
fn bound_of(task: &Task<'_>, full: Option<u128>) -> Option<Option<u64>>
    ensures some { IfSome result (IsPrintedSmall task.now full) }
    ensures none { IfNone result (IsPastLimit task.now full) }
{
    match full {
        Some(n) => match narrowed(n) {
            Some(n) => printed_small(task, Some(n)),
            None => None,
        },
        None => printed_small(task, None),
    }
}

/// What is answered of the method `m`, where this is known of all that may run while it does, and `least` is the least of them of
/// which a number is too large.
pub fn method_bound(task: &Task<'_>, table: &[Known], least: Option<u32>, m: u32) -> MethodBound
    requires method { m < length table.now }
    requires known { ForEach task.now (λ P. AreKnownWithin P task.now.timing (bounds_in task.now) table.now least m) }
    ensures bound { ForEach task.now (λ P. IsMethodBound P task.now.timing (bounds_in task.now) m result) }
    ensures printed { IsPrintedBy task.now table.now least m result }
{
    bound_rules::laws::printed_is_told();
    match (bound_of(task, table[m as usize].full), least) {
        (Some(bound), None) => MethodBound::Printed(bound),
        (Some(_), Some(x)) => MethodBound::TooLarge(x),
        (None, least) => MethodBound::TooLarge(lesser(least, m)),
    }
}

/// The certificate of the root, or the least method of which a number is too large.
pub fn certificate(task: &Task<'_>, root: u32, all: Methods) -> Result<Cert, BoundRefusal>
    requires root { root < length task.now.flow.methods }
    requires found { AreReadyFound task.now root all }
    ensures grammar { IfOk result (λ c. IsInGrammar c × (c.version ≡ 2) × (c.root ≡ root)) }
    ensures meets { IfOk result (λ c. ForEach task.now (λ P. MeetsConditions P task.now.timing (bounds_in task.now) c)) }
    ensures kinds { IfOk result (λ c. All (λ s. s.kind ≢ Alone) c.sections) }
    ensures empty { IfOk result (λ c. ForEach task.now (λ P. AreEmptyIfEndless P c.sections)) }
    ensures printed { IfOk result (λ c. ForEach task.now (λ P. IsPrinted P task.now.timing (bounds_in task.now) root c.bound)) }
    ensures kept { IfOk result (λ _. ForEach task.now (λ P. KeepSize P task.now.timing (bounds_in task.now) root)) }
    ensures cause { IfErr result (λ e. ForEach task.now (λ P. IsSizeCause P task.now.timing (bounds_in task.now) root e)) }
{
    let Methods {
        table,
        least,
        sections,
    } = all;
    match method_bound(task, &table, least, root) {
        MethodBound::Printed(bound) => Ok(Cert::new(2, root, sections, bound)),
        MethodBound::TooLarge(m) => Err(BoundRefusal::TooLarge(m)),
    }
}
