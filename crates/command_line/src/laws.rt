//! Laws of the definitions in `specs/`. The functions do nothing; a caller whose proof needs a law calls its function.
ghost use Rattle.command_line.specs.Grammar.{CommandsAreRead};
ghost use Rattle.command_line.specs.Rows.{CommandRows, ValueRows};

/// Words and what is read of them, worked out by hand.
pub fn rows_are_read()
    ensures commands { CommandRows }
    ensures values { ValueRows }
{}

/// What is read of words is the command that they are, or else the first word at which no command can go on.
pub fn commands_are_read()
    ensures { CommandsAreRead }
{}
