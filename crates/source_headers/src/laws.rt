//! What follows of the text of headers. Each function does nothing: its contract is the law.
ghost use Rattle.source_headers.specs.Laws.{HeaderFilesHaveLines, KeptNotesAreKept, WrittenKeepsNotes};
ghost use Rattle.source_headers.specs.Reading.{HeadersAreRead};
ghost use Rattle.source_headers.specs.Whole.{HeaderFilesAreRead, FilesBoundHeaders, FileBoundsAreFoundOrSaid, KeptNotesKeepTheFile, RootsHaveLines};

use bound_rules::laws::graphs_are_one;
use bound_texts::loops::laws::gives_one;
use class_rules::laws::methods_have_code;
use compact_walks::laws::{ends_are_one, graphs_are_moved, parts_are_sound};
use name_laws::laws::{written_are_words, written_names_are_one};
use program_tables::laws::methods_stand_by_number;

/// Each loop that may run while a method does is bounded by what is written, exactly where no remark stands in place of numbers.
pub fn header_files_have_lines()
    ensures { HeaderFilesHaveLines }
{
    graphs_are_one();
    graphs_are_moved();
    parts_are_sound();
    ends_are_one();
}

/// A walk keeps what is written exactly where it keeps what is found and what is said.
pub fn kept_notes_are_kept()
    ensures kept { KeptNotesAreKept }
    ensures exact { WrittenKeepsNotes }
{}

/// The lines of the headers of a method are read as just the numbers that are written.
pub fn headers_are_read()
    ensures { HeadersAreRead }
{}

/// The text of the headers of resolved classes is read as just the numbers that are written.
pub fn header_files_are_read()
    ensures { HeaderFilesAreRead }
{
    graphs_are_one();
    graphs_are_moved();
    parts_are_sound();
    ends_are_one();
    methods_have_code();
    methods_stand_by_number();
    written_are_words();
    written_names_are_one();
}

/// By what the text is read as, each header of a loop has just the number that is written for it.
pub fn files_bound_headers()
    ensures bounds { FilesBoundHeaders }
    ensures sources { FileBoundsAreFoundOrSaid }
{
    header_files_are_read();
    written_names_are_one();
    gives_one();
}

/// By what the text is read as, each loop that may run while a method does is bounded exactly where no remark stands in place of numbers.
pub fn roots_have_lines()
    ensures { RootsHaveLines }
{
    graphs_are_one();
    graphs_are_moved();
    parts_are_sound();
    ends_are_one();
    header_files_are_read();
    written_names_are_one();
    gives_one();
}

/// A walk that keeps what is found and what is said keeps what the text is read as.
pub fn kept_notes_keep_the_file()
    ensures { KeptNotesKeepTheFile }
{
    header_files_are_read();
    written_names_are_one();
    gives_one();
}
