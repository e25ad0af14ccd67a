//! Lines with a mistake each, and what is told of them. A law is the contract of a function that does nothing.

ghost use Rattle.dotenvy_findings.specs.Worked.{HaveBadBytes, HaveFaults, HaveMarks, HaveOpenQuotes};
ghost use Rattle.dotenvy_findings.specs.Laws.{FaultsAreErrors, MarksAreWarnings, OpenFaultsAreErrors, OthersHaveOne, PartsJoin, TextHasNone, TextMovesPlace};

/// Lines that are no declarations, and the fault of each.
pub fn worked_faults()
    ensures { HaveFaults }
{}

/// Lines that are declarations, and what is told of each.
pub fn worked_marks()
    ensures { HaveMarks }
{}

/// Texts of several lines in which a quote stays open or is closed later, and the fault of each.
pub fn worked_open_quotes()
    ensures { HaveOpenQuotes }
{}

/// Files, and the bytes of each that are no text.
pub fn worked_bad_bytes()
    ensures { HaveBadBytes }
{}

/// Bytes may be cut anywhere: to watch two parts is to watch both in one.
pub fn parts_join()
    ensures { PartsJoin }
{}

/// In a file that is UTF-8 no byte is found.
pub fn text_has_none()
    ensures { TextHasNone }
{}

/// In a file that is not UTF-8 a byte is found.
pub fn others_have_one()
    ensures { OthersHaveOne }
{}

/// Text moves the place over its characters, and no byte of it is found: columns are those of characters.
pub fn text_moves_place()
    ensures { TextMovesPlace }
{}

/// Why a line is no declaration, where no part of it stays open, is an error.
pub fn faults_are_errors()
    ensures { FaultsAreErrors }
{}

/// Why a line stays open at the end of a file is an error.
pub fn open_faults_are_errors()
    ensures { OpenFaultsAreErrors }
{}

/// Nothing that is told of a declaration is an error.
pub fn marks_are_warnings()
    ensures { MarksAreWarnings }
{}
