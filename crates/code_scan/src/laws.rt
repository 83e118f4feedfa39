//! Laws of the definitions in `specs/`. The functions do nothing; a caller whose proof needs a law calls its function.

ghost use Rattle.code_scan.specs.Naming.{EndsAreRead, NamesAreRead};

/// What a method of a program names, and where its instructions end, is read off its code and its exception table.
pub fn names_are_read()
    ensures names { NamesAreRead }
    ensures ends { EndsAreRead }
{
    code_lines::laws::lines_are_read();
    opcodes::laws::targets_fit_the_kind();
}
