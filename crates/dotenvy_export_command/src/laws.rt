//! Laws of the command line. A law is the contract of a function that does nothing.

ghost use Rattle.dotenvy_export_command.specs.Laws.{MergedOnce};
ghost use Rattle.dotenvy_export_command.specs.WorkedWords.{WorkedWords};

/// What some command lines ask for, and why others are refused.
///
/// The first word that is no option is the target. Options may be repeated, and come between files. `-` is a file, and
/// each word after `--` is a target or a file. A value is the word after its option, or stands in the same word after
/// `=`.
pub fn worked_words()
    ensures { WorkedWords }
{}

/// No file is lost or named twice where files and optional files are merged, and each kind keeps its order.
pub fn merged_once()
    ensures { MergedOnce }
{}
