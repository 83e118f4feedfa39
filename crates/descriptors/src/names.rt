//! The forms of names (JVM Specification SE 8, 4.2).
ghost use Rattle.std.specs.Prelude.{◌≡◌};
ghost use Rattle.std.specs.List.{list_all};
ghost use Rattle.descriptors.specs.Names.{is_plain, is_not_angle, is_unqualified, is_instance_initializer, is_class_initializer, is_method_name};
ghost use Rattle.descriptors.specs.Names.{has_no_parenthesis, is_class_name};

use base::is_text;

/// What stands between the parts of a name of a class.
const SLASH: u16 = b'/' as u16;

fn is_plain(unit: u16) -> bool
    ensures { result ≡ is_plain unit }
{
    !(unit == b'.' as u16 || unit == b';' as u16 || unit == b'[' as u16 || unit == SLASH)
}

/// Whether the units are an unqualified name (JVM Specification SE 8, 4.2.2).
pub fn is_unqualified(units: &[u16]) -> bool
    ensures { result ≡ is_unqualified units.now }
{
    !units.is_empty() && are_plain(units)
}

fn are_plain(units: &[u16]) -> bool
    ensures { result ≡ list_all is_plain units.now }
{
    units.iter().all(|unit| is_plain(*unit))
}

fn are_not_angles(units: &[u16]) -> bool
    ensures { result ≡ list_all is_not_angle units.now }
{
    units.iter().all(|unit| is_not_angle(*unit))
}

fn is_not_angle(unit: u16) -> bool
    ensures { result ≡ is_not_angle unit }
{
    !(unit == b'<' as u16 || unit == b'>' as u16)
}

/// Whether the units are `<init>`.
pub fn is_instance_initializer(units: &[u16]) -> bool
    ensures { result ≡ is_instance_initializer units.now }
{
    is_text(units, b"<init>")
}

/// Whether the units are `<clinit>`.
pub fn is_class_initializer(units: &[u16]) -> bool
    ensures { result ≡ is_class_initializer units.now }
{
    is_text(units, b"<clinit>")
}

/// Whether the units are the name of a method (JVM Specification SE 8, 4.2.2).
pub fn is_method_name(units: &[u16]) -> bool
    ensures { result ≡ is_method_name units.now }
{
    is_instance_initializer(units)
        || is_class_initializer(units)
        || (is_unqualified(units) && are_not_angles(units))
}

/// Whether no unit is `(`.
pub fn has_no_parenthesis(units: &[u16]) -> bool
    ensures { result ≡ has_no_parenthesis units.now }
{
    units.iter().all(|unit| *unit != b'(' as u16)
}

/// Whether the units are the name of a class or an interface (JVM Specification SE 8, 4.2.1).
pub fn is_class_name(units: &[u16]) -> bool
    ensures { result ≡ is_class_name units.now }
{
    // Whether a name between slashes is about to begin.
    let mut fresh = true;
    for unit in units {
        if *unit == SLASH {
            if fresh {
                return false;
            }
            fresh = true;
        } else {
            if !is_plain(*unit) {
                return false;
            }
            fresh = false;
        }
    }
    !fresh
}
