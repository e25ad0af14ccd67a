//! Laws of the file format: what holds for every file, in both dialects.
//!
//! A law is the contract of a function that does nothing: a call of it has no effect. The worked files and loads at the
//! end are examples of the definitions; docs/GRAMMAR.md has such examples for every rule.

ghost use Rattle.dotenvy_format.specs.Laws.{CompletedByText, DecidesFront, HasOneDecision, HasOneMeaning, HasOneNext, HasOneOutcome, HasOneReading, LinesAreCut, LoadKeeps, LoadsInTurn, LoadsTwice, NamesDecideItems, OverridesDeclared, PlacesAreLongest, ReadsBack};
ghost use Rattle.dotenvy_format.specs.WorkedFiles.{HaveDecisions, HaveDialects, HaveLines, HaveMarks, HaveOpenQuotes, HaveStatements, HaveValues, HaveWritten};
ghost use Rattle.dotenvy_format.specs.WorkedLoads.{HaveNuls, HaveRepeats};

/// Each physical line ends with its line feed. Only the last may lack it.
pub fn lines_are_cut()
    ensures { LinesAreCut }
{}

/// Physical lines, if there are any, have one next logical line, made of one number of them.
pub fn one_next()
    ensures { HasOneNext }
{}

/// A value has one meaning: one list of pieces.
pub fn one_meaning()
    ensures { HasOneMeaning }
{}

/// A logical line says one thing: nothing, a pair, or a fault at one place.
pub fn one_outcome()
    ensures { HasOneOutcome }
{}

/// No longer first part of a text than up to its fault can be completed, to a statement or to a value.
pub fn places_are_longest()
    ensures { PlacesAreLongest }
{}

/// What can be completed to a statement or to a value can be completed by ASCII characters.
///
/// So it makes no difference that the place of a fault is defined by any lists of numbers.
pub fn completed_by_text()
    ensures { CompletedByText }
{}

/// Any bytes have one list of entries, and only one.
pub fn one_reading()
    ensures { HasOneReading }
{}

/// The first bytes of a file decide one list of entries, and only one.
pub fn one_decision()
    ensures { HasOneDecision }
{}

/// The entries that bytes decide are the first entries of these bytes and whatever follows them.
pub fn decides_front()
    ensures { DecidesFront }
{}

/// Pairs that are written are read back as the same pairs, under every environment.
pub fn reads_back()
    ensures { ReadsBack }
{}

/// `load` sets each absent name to its first value, and `load_override` each name to its last.
///
/// Both take one entry after another, up to the first fault.
pub fn loads_in_turn()
    ensures { LoadsInTurn }
{}

/// `load` keeps the value of each name that has one.
pub fn load_keeps()
    ensures { LoadKeeps }
{}

/// To `load` the same entries a second time changes nothing, and returns the same.
pub fn loads_twice()
    ensures { LoadsTwice }
{}

/// `load_override` changes only names that are declared before its first fault.
pub fn overrides_declared()
    ensures { OverridesDeclared }
{}

/// Environments that agree on every name in the entries give the same items.
pub fn names_decide_items()
    ensures { NamesDecideItems }
{}

/// Worked files: which physical lines make a logical line.
#[tactic(auto, using(crate::proofs::WorkedFiles::lines))]
pub fn worked_lines()
    ensures { HaveLines }
{}

/// Worked files: keys, `export`, and lines that are not a statement.
#[tactic(auto, using(crate::proofs::WorkedFiles::statements))]
pub fn worked_statements()
    ensures { HaveStatements }
{}

/// Worked files: values, and the places of faults in them.
#[tactic(auto, using(crate::proofs::WorkedFiles::values))]
pub fn worked_values()
    ensures { HaveValues }
{}

/// Worked lines: quotes that are open at the end of a line.
#[tactic(auto, using(crate::proofs::WorkedFiles::open_quotes))]
pub fn worked_open_quotes()
    ensures { HaveOpenQuotes }
{}

/// Worked files: one file under each dialect.
#[tactic(auto, using(crate::proofs::WorkedFiles::dialects))]
pub fn worked_dialects()
    ensures { HaveDialects }
{}

/// Worked files: byte order marks.
#[tactic(auto, using(crate::proofs::WorkedFiles::marks))]
pub fn worked_marks()
    ensures { HaveMarks }
{}

/// Worked pairs: their written form.
#[tactic(auto, using(crate::proofs::WorkedFiles::written))]
pub fn worked_pairs()
    ensures { HaveWritten }
{}

/// Worked files: what the first bytes of a file decide.
#[tactic(auto, using(crate::proofs::WorkedFiles::decisions))]
pub fn worked_decisions()
    ensures { HaveDecisions }
{}

/// Worked loads: which of two values of a name counts.
#[tactic(auto, using(crate::proofs::WorkedFiles::repeats))]
pub fn worked_repeats()
    ensures { HaveRepeats }
{}

/// Worked loads: where a NUL stops a load.
#[tactic(auto, using(crate::proofs::WorkedFiles::nuls))]
pub fn worked_nuls()
    ensures { HaveNuls }
{}
