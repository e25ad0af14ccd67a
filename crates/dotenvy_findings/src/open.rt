//! Quotes that stay open, or that are closed by a later one.

ghost use Rattle.std.specs.Prelude.{◌≡◌};
ghost use Rattle.dotenvy_findings.specs.Opens.{fault_alone, has_hash_after, is_inside, later_line, mode_after, open_after, open_begun, open_fault, opened_fault, opened_kind, suspect_after, suspect_fault};
ghost use Rattle.dotenvy_findings.specs.Runs.{walks_on};

use crate::characters::{begins_declaration, is_letter, is_plain, is_plain_or_space};
use crate::finding::LineFault;
use crate::kind::Kind;
use crate::place::Place;
use dotenvy_format::walk::{LineMode, next_mode};

/// A quote that has a declaration on a later line.
#[derive(Clone, Copy)]
pub(crate) struct Suspect {
    /// What is told of it if it stays open.
    pub(crate) kind: Kind,
    /// Where that is told.
    pub(crate) place: Place,
    /// The physical line of the declaration.
    pub(crate) line: u64,
}

impl Suspect {
    /// The fault that it is.
    pub(crate) fn fault(self) -> LineFault
        ensures { result ≡ suspect_fault self }
    {
        LineFault {
            kind: self.kind,
            place: self.place,
            behind: Some(self.line),
        }
    }
}

/// The fault of this kind at this place, behind which nothing is a guess.
pub(crate) fn fault_alone(kind: Kind, place: Place) -> LineFault
    ensures { result ≡ fault_alone kind place }
{
    LineFault {
        kind,
        place,
        behind: None,
    }
}

// The physical line behind that of the first place, if the second is on a later one.
fn later_line(start: Place, end: Place) -> Option<u64>
    ensures { result ≡ later_line start end }
{
    if start.line < end.line {
        Some(start.line.saturating_add(1))
    } else {
        None
    }
}

/// How far a walk over the text of a logical line came, and which quotes it met.
#[derive(Clone, Copy)]
pub(crate) struct OpenCursor {
    /// The place of the value, if it begins with a single quote.
    pub(crate) single: Option<Place>,
    /// The mode behind what was walked over.
    pub(crate) mode: LineMode,
    /// The place of the next character.
    pub(crate) place: Place,
    /// The place of the last character.
    pub(crate) last: Place,
    /// The last character.
    pub(crate) before: Option<char>,
    /// Whether what looks like a comment was begun outside quotes on this physical line.
    pub(crate) has_hash: bool,
    /// The last quote that was opened: what is told of it if it stays open.
    pub(crate) opened: (Kind, Place),
    /// The first quote that has a declaration on a later line.
    pub(crate) suspect: Option<Suspect>,
}

/// Whether the mode is that of a part in quotes.
///
/// ```text
/// // behind `A="x`: true; behind `A="x"`: false
/// ```
pub fn is_inside(mode: LineMode) -> bool
    ensures { result ≡ is_inside mode }
{
    matches!(mode, LineMode::Inside(_) | LineMode::InsideEscaping(_))
}

// The mode behind one more character of a line that doesn't end.
fn mode_after(mode: LineMode, c: char) -> LineMode
    ensures { result ≡ mode_after mode c }
{
    match next_mode(mode, c) {
        Some(next) => next,
        None => LineMode::Outside,
    }
}

// Whether a walk stays in this mode over a character, which is no line feed and begins no comment.
fn walks_on(mode: LineMode, c: char) -> bool
    ensures { result ≡ walks_on mode c }
{
    match mode {
        LineMode::Outside => is_plain(c) && c != '#',
        LineMode::Inside(quote) => is_plain_or_space(c) && c != quote,
        _ => false,
    }
}

impl OpenCursor {
    /// A cursor before a text that begins at this place; the value begins with a single quote at this one, if it does.
    pub(crate) fn new(start: Place, single: Option<Place>) -> OpenCursor
        ensures { result ≡ open_begun start single }
    {
        OpenCursor {
            single,
            mode: LineMode::Outside,
            place: start,
            last: start,
            before: None,
            has_hash: false,
            opened: (Kind::OtherFault, start),
            suspect: None,
        }
    }

    // What is told of a quote that is opened here, if it stays open.
    fn opened_kind(self, quote: char) -> (Kind, Place)
        ensures { result ≡ opened_kind self quote }
    {
        if self.has_hash {
            return (Kind::OpenQuoteInComment, self.place);
        }
        if quote == '"' {
            return (Kind::OpenDoubleQuote, self.place);
        }
        if !is_letter(self.before) {
            return (Kind::OpenSingleQuote, self.place);
        }
        match self.single {
            Some(place) => (Kind::OpenSingleQuote, place),
            None => (Kind::OpenApostrophe, self.place),
        }
    }

    // Whether what looks like a comment was begun outside quotes on the physical line, behind one more character.
    fn has_hash_after(self, c: char) -> bool
        ensures { result ≡ has_hash_after self c }
    {
        match (self.before, c) {
            (_, '\n') => false,
            (Some(blank), '#') if !is_inside(self.mode) => self.has_hash || blank.is_whitespace(),
            _ => self.has_hash,
        }
    }

    // The first suspect quote, behind one more character, before this text.
    fn suspect_after(self, c: char, rest: &[char]) -> Option<Suspect>
        ensures { result ≡ suspect_after self c rest.now }
    {
        match self.suspect {
            Some(suspect) => Some(suspect),
            None if c == '\n' && is_inside(self.mode) && begins_declaration(rest) => {
                let (kind, place) = self.opened;
                Some(Suspect {
                    kind,
                    place,
                    line: self.place.after(c).line,
                })
            }
            None => None,
        }
    }

    /// The cursor behind this character, before this text.
    pub(crate) fn after(self, c: char, rest: &[char]) -> OpenCursor
        ensures { result ≡ open_after self c rest.now }
    {
        if walks_on(self.mode, c) {
            let mut moved = self;
            moved.place = self.place.after(c);
            moved.last = self.place;
            moved.before = Some(c);
            return moved;
        }
        let next = mode_after(self.mode, c);
        let opened = if is_inside(next) && !is_inside(self.mode) {
            self.opened_kind(c)
        } else {
            self.opened
        };
        OpenCursor {
            single: self.single,
            mode: next,
            place: self.place.after(c),
            last: self.place,
            before: Some(c),
            has_hash: self.has_hash_after(c),
            opened,
            suspect: self.suspect_after(c, rest),
        }
    }

    // The last quote that was opened as the fault of a text that begins at this place.
    fn opened_fault(self, start: Place) -> LineFault
        ensures { result ≡ opened_fault self start }
    {
        let (kind, place) = self.opened;
        LineFault {
            kind,
            place,
            behind: later_line(start, self.place),
        }
    }

    /// Why the line, which begins at this place, stays open, with the cursor at its end.
    pub(crate) fn fault(self, start: Place) -> LineFault
        ensures { result ≡ open_fault self start }
    {
        match (self.suspect, self.mode) {
            (Some(suspect), _) => suspect.fault(),
            (None, LineMode::Inside(_) | LineMode::InsideEscaping(_)) => self.opened_fault(start),
            (None, LineMode::Escaping) => fault_alone(Kind::BackslashAtEnd, self.last),
            (None, LineMode::AfterBlank) => fault_alone(Kind::BlankAtEnd, self.last),
            (None, LineMode::Outside) => fault_alone(Kind::OtherFault, self.last),
        }
    }
}
