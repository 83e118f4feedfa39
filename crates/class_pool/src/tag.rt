//! Tags of entries of a constant pool (table 4.4-A).

ghost use Rattle.std.specs.Prelude.{◌≡◌};
ghost use Rattle.class_pool.specs.Reading.{tag_in};

/// The tags of entries (JVM Specification SE 8, table 4.4-A).
#[derive(Clone, Copy)]
pub(crate) enum Tag {
    Utf8,
    Integer,
    Float,
    Long,
    Double,
    Class,
    Text,
    Field,
    Method,
    InterfaceMethod,
    NameAndType,
    Handle,
    MethodType,
    Dynamic,
}

#[tactic(auto, unfolding(crate::specs::Reading::tag_in, crate::specs::Reading::tag_number))]
pub(crate) fn tag_of(number: u8) -> Option<Tag>
    ensures { result ≡ tag_in number }
{
    let tag = match number {
        1 => Tag::Utf8,
        3 => Tag::Integer,
        4 => Tag::Float,
        5 => Tag::Long,
        6 => Tag::Double,
        7 => Tag::Class,
        8 => Tag::Text,
        9 => Tag::Field,
        10 => Tag::Method,
        11 => Tag::InterfaceMethod,
        12 => Tag::NameAndType,
        15 => Tag::Handle,
        16 => Tag::MethodType,
        18 => Tag::Dynamic,
        _ => return None,
    };
    Some(tag)
}
