//! Laws of edits: what they leave of the entries of a file.
//!
//! A law is the contract of a function that does nothing: a call of it has no effect.

ghost use Rattle.dotenvy_editor.specs.Laws.{HasOneCut, HasOneMarking, KeepsMark, RenamesEach};
ghost use Rattle.dotenvy_editor.specs.Laws.{SetsOneEntry, StandsAlone, UnsetsAll, WholeStays};

/// A line with its line feed is the same logical line alone and before any later bytes, unless it stays open.
pub fn stands_alone()
    ensures { StandsAlone }
{}

/// A file is cut into its logical lines in one way.
pub fn one_cut()
    ensures { HasOneCut }
{}

/// The entries of whole lines stay, whatever follows: a reader that has so many bytes can take them, and go on after
/// these bytes.
///
/// ```
/// // of `A=1\nB='x\n` 4 bytes are whole: before any more bytes the entry of A comes first, then those of `B='x\n` and
/// // the bytes after it
/// whole_stays();
/// ```
pub fn whole_stays()
    ensures { WholeStays }
{}

/// Each entry of a file is marked in one way: of a line that assigns the key, or of another. A declaration is marked
/// by its key, and a fault by its line.
///
/// ```
/// // for A, the entry of `A=1` is of an assignment, and so is the fault of `A=two words`; that of `B=$A` is not
/// one_marking();
/// ```
pub fn one_marking()
    ensures { HasOneMarking }
{}

/// A set gives the key one entry, which means the value, in the place of the first assignment or at the end. All
/// entries of other lines stay, in order.
///
/// ```
/// // `A=1\nB=2\nA=3\n` with A set to `x`: an entry of A that means `x`, and the entry of B
/// sets_one_entry();
/// ```
pub fn sets_one_entry()
    ensures { SetsOneEntry }
{}

/// An unset leaves the entries of the lines that don't assign the key, in order.
///
/// ```
/// // `A=1\nB=2\nA=3\n` without A: the entry of B
/// unsets_all();
/// ```
pub fn unsets_all()
    ensures { UnsetsAll }
{}

/// A rename to a key leaves all entries, with the new key in each declaration of the old one.
///
/// ```
/// // `A=1\nB=$A\n` with A renamed to C: C with the pieces of `1`, and the entry of B, which mentions A still
/// renames_each();
/// ```
pub fn renames_each()
    ensures { RenamesEach }
{}

/// An edit keeps the byte order mark at the start of a file, and gives one to no other.
pub fn keeps_mark()
    ensures { KeepsMark }
{}
