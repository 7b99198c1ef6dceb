//! What the lines of a report say.

ghost use Rattle.gnat_report.specs.Reading.{ErrorLinesDiffer, FaultLinesDiffer, LinesAreRows, LinesReadBack, OneLineIsWhole};

/// The whole lines of a report's text are the lines of its rows in order, and those of a first part of the text are the
/// lines of its first rows.
pub fn lines_are_rows()
    ensures { LinesAreRows }
{}

/// A row's line among the whole lines of a report's text, or of a first part of it, is that of a row of the report
/// with the same name, line, column, kind and status.
pub fn lines_read_back()
    ensures { LinesReadBack }
{}

/// A text that has a line feed at its end alone has one whole line.
pub fn one_line_is_whole()
    ensures { OneLineIsWhole }
{}

/// No row's line begins as a line on the program itself does.
pub fn fault_lines_differ()
    ensures { FaultLinesDiffer }
{}

/// No row's line begins as a refusal at a place does.
pub fn error_lines_differ()
    ensures { ErrorLinesDiffer }
{}
