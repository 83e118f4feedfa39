//! What linking refuses of classes.

/// What this machine doesn't support, in the order in which several at one place are tried.
#[derive(Clone, Copy)]
pub enum Item {
    /// An opcode, plain or behind `wide`.
    Opcode(u8),
    LdcFloat,
    LdcClass,
    /// `ldc` of a method handle or a method type.
    LdcMethod,
    LdcDouble,
    NewarrayFloat,
    NewarrayDouble,
    /// `float` in the descriptor of a declared or a named member.
    DescriptorFloat,
    DescriptorDouble,
    Native,
    /// The code of a method of an interface that isn't its initialization method.
    InterfaceCode,
}

/// Where an item stands in a class file: at a field or a method, by its place in their list, or at the instruction of a method at a place of its code.
#[derive(Clone, Copy)]
pub enum Site {
    Field(u32),
    Method(u32),
    Code(u32, u32),
}

/// Why what a pool entry names can't be resolved, in the order in which several are tried.
#[derive(Clone, Copy)]
pub enum Why {
    /// A class that the entry names, in its descriptor too, isn't there.
    NoClass,
    NoField,
    NoMethod,
    NotAccessible,
    /// What is named is of another kind than the instruction needs.
    WrongKind,
    /// A class that isn't abstract leaves an abstract method without code.
    NotImplemented,
}
