//! The flags of classes, fields and methods (JVM Specification SE 8, tables 4.1-A, 4.5-A and 4.6-A).
ghost use Rattle.std.specs.Prelude.{◌≡◌};
ghost use Rattle.class_rules.specs.Tests.{has_one_access};
ghost use Rattle.class_pool.specs.Grammar.{has};

pub const ACC_PUBLIC: u16 = 0x0001;

pub const ACC_PRIVATE: u16 = 0x0002;

pub const ACC_PROTECTED: u16 = 0x0004;

pub const ACC_STATIC: u16 = 0x0008;

pub const ACC_FINAL: u16 = 0x0010;

pub const ACC_SYNCHRONIZED: u16 = 0x0020;

pub const ACC_NATIVE: u16 = 0x0100;

pub const ACC_INTERFACE: u16 = 0x0200;

pub const ACC_ABSTRACT: u16 = 0x0400;

pub const ACC_STRICT: u16 = 0x0800;

/// The flags of access together: a member with none of them is package-private.
pub const ACC_ACCESS: u16 = 0x0007;

/// Whether a flag is set.
pub fn has(flags: u16, flag: u16) -> bool
    ensures { result ≡ has flags flag }
{
    flags & flag != 0
}

/// Whether at most one of public, private and protected is set.
pub(crate) fn has_one_access(flags: u16) -> bool
    ensures { result ≡ has_one_access flags }
{
    !(has(flags, ACC_PUBLIC) && has(flags, ACC_PRIVATE))
        && !(has(flags, ACC_PUBLIC) && has(flags, ACC_PROTECTED))
        && !(has(flags, ACC_PRIVATE) && has(flags, ACC_PROTECTED))
}
