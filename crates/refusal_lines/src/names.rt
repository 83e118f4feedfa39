//! The names of items, reasons, rules and limits.
ghost use Rattle.std.specs.Prelude.{◌≡◌};
ghost use Rattle.refusal_lines.specs.Names.{item_name, why_name, walk_rule_name, rule_name, limit_name};

use bytecode_verifier::{MethodRule, Rule};
use image_builder::Counted;
use opcodes::name;
use program_tables::{Item, Why};

/// The name of an item that this machine doesn't support.
pub(crate) fn item_name(item: Item) -> &'static str
    ensures { result.now ≡ item_name item }
{
    match item {
        Item::Opcode(op) => name(op),
        Item::LdcFloat => "ldc float",
        Item::LdcClass => "ldc class",
        Item::LdcMethod => "ldc method",
        Item::LdcDouble => "ldc2_w double",
        Item::NewarrayFloat => "newarray float",
        Item::NewarrayDouble => "newarray double",
        Item::DescriptorFloat => "descriptor F",
        Item::DescriptorDouble => "descriptor D",
        Item::Native => "native",
        Item::InterfaceCode => "interface code",
    }
}

/// The name of the reason why an entry isn't resolved.
pub(crate) fn why_name(why: Why) -> &'static str
    ensures { result.now ≡ why_name why }
{
    match why {
        Why::NoClass => "NoClass",
        Why::NoField => "NoField",
        Why::NoMethod => "NoMethod",
        Why::NotAccessible => "NotAccessible",
        Why::WrongKind => "WrongKind",
        Why::NotImplemented => "NotImplemented",
    }
}

fn walk_rule_name(rule: Rule) -> &'static str
    ensures { result.now ≡ walk_rule_name rule }
{
    match rule {
        Rule::Flow => "flow",
        Rule::Merge => "merge",
        Rule::Operand => "operand",
        Rule::Stack => "stack",
        Rule::Access => "access",
        Rule::Init => "init",
        Rule::Target => "target",
        Rule::Handled => "handler",
    }
}

/// The name of a rule of the verifier.
pub(crate) fn rule_name(rule: MethodRule) -> &'static str
    ensures { result.now ≡ rule_name rule }
{
    match rule {
        MethodRule::Opcode => "opcode",
        MethodRule::Table => "table",
        MethodRule::Map => "map",
        MethodRule::Walk(rule) => walk_rule_name(rule),
    }
}

/// The name of what an image has at most so many of.
pub(crate) fn limit_name(what: Counted) -> &'static str
    ensures { result.now ≡ limit_name what }
{
    match what {
        Counted::Types => "Types",
        Counted::InterfaceMethods => "InterfaceMethods",
        Counted::Methods => "Methods",
        Counted::Words => "Words",
    }
}
