//! The text of a logical line: why it is no declaration, and what is told of one.

ghost use Rattle.std.specs.Prelude.{◌≡◌, take, IfOk, OnOk};
ghost use Rattle.std.specs.Str.{chars};
ghost use Rattle.dotenvy_findings.specs.LineTexts.{closed_fault, empty_kind, has_key_form, has_only_letters, is_nothing, line_fault, line_marks, open_line_fault, own_marks, place_left, suspect_told, value_place, value_text, walked_line, with_found};
ghost use Rattle.dotenvy_findings.specs.Causes.{skip_white};
ghost use Rattle.dotenvy_findings.specs.Places.{place_after};
ghost use Rattle.dotenvy_findings.specs.Readings.{marks_of};

use crate::cause::{after_equals, line_kind, skip_white, statement_fault, value_of};
use crate::finding::LineFault;
use crate::kind::Kind;
use crate::names::Names;
use crate::open::{OpenCursor, Suspect, fault_alone};
use crate::place::Place;
use crate::reading::{Mark, Value, has_kind, value_marks};
use dotenvy_format::dialect::Dialect;
use std::alloc::{AllocError, Allocator};

/// The text of a logical line, without white space at its end.
#[derive(Clone, Copy)]
pub struct LineText<'a> {
    /// How it is read.
    pub dialect: Dialect,
    /// Its characters.
    pub text: &'a [char],
    /// The place of the first of them.
    pub start: Place,
}

// The place behind this text, which begins at this one.
fn place_after(start: Place, text: &[char]) -> Place
    ensures { result ≡ place_after start text.now }
{
    let mut place = start;
    let mut rest = text;
    'characters: while let Some((first, after)) = rest.split_first() {
        place = place.after(*first);
        rest = after;
    }
    place
}

// The place behind so many characters of the text.
fn place_at(start: Place, text: &[char], offset: usize) -> Place
    ensures { result ≡ place_after start (take offset text.now) }
{
    match text.get(..offset) {
        Some(front) => place_after(start, front),
        None => place_after(start, text),
    }
}

// Whether each character is a letter or a digit of ASCII.
fn has_only_letters(text: &[char]) -> bool
    ensures { result ≡ has_only_letters text.now }
{
    let mut rest = text;
    'characters: while let Some((first, after)) = rest.split_first() {
        if !first.is_ascii_alphanumeric() {
            return false;
        }
        rest = after;
    }
    true
}

// Whether a name has the form of a part of a key in PEM form: it is long, and has letters and digits alone.
fn has_key_form(key: &[char]) -> bool
    ensures { result ≡ has_key_form key.now }
{
    key.len() >= 20 && has_only_letters(key)
}

// Whether nothing is assigned, or a comment, or an equals sign alone.
fn is_nothing(value: &[char]) -> bool
    ensures { result ≡ is_nothing value.now }
{
    match value.first() {
        None | Some('#') => true,
        Some('=') => value.len() == 1,
        Some(_) => false,
    }
}

// Tells this too, if nothing of its kind was told.
fn tell_found<A: Allocator + Clone>(
    marks: &mut Vec<Mark<A>, A>,
    found: Option<(Kind, Place)>,
) -> Result<(), AllocError>
    ensures { OnOk result (marks_of marks.new.items ≡ with_found found (marks_of marks.old.items)) }
{
    match found {
        Some((kind, place)) if !has_kind(marks.as_slice(), kind) => {
            let name = String::new(marks.allocator().clone()?);
            marks.push(Mark { kind, place, name })?;
            Ok(())
        }
        _ => Ok(()),
    }
}

/// The characters of a text.
///
/// ```text
/// // `A=é`: 'A', '=' and 'é'
/// ```
pub fn characters_of<A: Allocator>(alloc: A, text: &str) -> Result<Vec<char, A>, AllocError>
    ensures { IfOk result (λ characters. characters.items ≡ chars text.now) }
{
    // Room is asked for once, so that memory that is refused is told, and not asked for again.
    let mut characters = Vec::with_capacity(alloc, text.len())?;
    characters.extend(text.chars())?;
    Ok(characters)
}

impl<'a> LineText<'a> {
    /// The place of its first character that is no white space.
    ///
    /// ```text
    /// // `  A=1` that begins at line 2, column 1: line 2, column 3
    /// ```
    pub fn first_place(self) -> Place
        ensures { result ≡ place_left self.entry.start self.entry.text.now (skip_white self.entry.text.now) }
    {
        let offset = self.text.len().saturating_sub(skip_white(self.text).len());
        place_at(self.start, self.text, offset)
    }

    // What is assigned, if this is a declaration.
    fn value(self) -> Value<'a>
        ensures dialect { result.dialect ≡ self.entry.dialect }
        ensures text { result.text.now ≡ value_text self.entry.text.now }
        ensures start { result.start ≡ value_place self.entry.start self.entry.text.now }
    {
        let value = value_of(self.text);
        let offset = self.text.len().saturating_sub(value.len());
        Value {
            dialect: self.dialect,
            text: value,
            start: place_at(self.start, self.text, offset),
        }
    }

    // The cause and the place of its fault, if it is no declaration.
    fn first_fault(self) -> (Kind, Place)
        ensures { result
            ≡ line_fault self.entry.dialect self.entry.start self.entry.text.now }
    {
        match statement_fault(self.text) {
            Some((kind, offset)) => (kind, place_at(self.start, self.text, offset)),
            None => self.value().fault(),
        }
    }

    // A walk over its text, in search of quotes.
    fn walk(self) -> OpenCursor
        ensures { result ≡ walked_line self.entry.start self.entry.text.now }
    {
        let value = self.value();
        let single = match value.text.first() {
            Some('\'') => Some(value.start),
            _ => None,
        };
        let mut cursor = OpenCursor::new(self.start, single);
        let mut left = self.text;
        'characters: while let Some((first, rest)) = left.split_first() {
            cursor = cursor.after(*first, rest);
            left = rest;
        }
        cursor
    }

    // The first quote that has a declaration on a later line. A single line has none, and isn't walked over.
    fn suspect(self) -> Option<Suspect>
        ensures { result ≡ (walked_line self.entry.start self.entry.text.now).suspect }
    {
        if self.text.contains(&'\n') {
            self.walk().suspect
        } else {
            None
        }
    }

    /// Why it is no declaration, if it is none and no part of it stays open. A quote that has a declaration on a later
    /// line is the cause of a fault that is told there or later.
    pub fn fault(self) -> LineFault
        ensures { result
            ≡ closed_fault self.entry.dialect self.entry.start self.entry.text.now }
    {
        let (kind, place) = self.first_fault();
        match self.suspect() {
            Some(suspect) if suspect.line <= place.line => suspect.fault(),
            _ => fault_alone(kind, place),
        }
    }

    /// Why it is no declaration, if it stays open at the end of the file. It is to have the white space at its end.
    pub fn open_fault(self) -> LineFault
        ensures { result ≡ open_line_fault self.entry.start self.entry.text.now }
    {
        match line_kind(skip_white(self.text)) {
            Some(kind) => fault_alone(kind, self.first_place()),
            None => self.walk().fault(self.start),
        }
    }

    // What is told of a quote in a declaration that is closed by a later one.
    fn suspect_kind(self) -> Option<(Kind, Place)>
        ensures { result ≡ suspect_told (walked_line self.entry.start self.entry.text.now).suspect }
    {
        let suspect = self.suspect()?;
        match suspect.kind {
            Kind::OpenQuoteInComment => Some((Kind::QuoteInComment, suspect.place)),
            _ => Some((Kind::QuoteClosedLater, suspect.place)),
        }
    }

    // What is told of a key to which nothing or a comment is assigned.
    fn empty_kind(self, key: &[char]) -> Option<(Kind, Place)>
        ensures { result ≡ empty_kind self.entry.start self.entry.text.now key.now }
    {
        let behind = after_equals(self.text);
        if behind.first() == Some(&'#') {
            let offset = self.text.len().saturating_sub(behind.len());
            Some((
                Kind::HashAfterEquals,
                place_at(self.start, self.text, offset),
            ))
        } else if has_key_form(key) {
            Some((Kind::KeyLine, self.first_place()))
        } else {
            None
        }
    }

    // What is told of the key and the value of a declaration, each kind once, where these names have a value.
    fn value_marks<N: Names, A: Allocator + Clone>(
        self,
        alloc: A,
        names: &N,
        key: &str,
    ) -> Result<Vec<Mark<A>, A>, AllocError>
        ensures { IfOk result (λ marks. marks_of marks.items
            ≡ own_marks (N.has_value names.now) key.now self.entry.dialect self.entry.start
            self.entry.text.now) }
    {
        let value = self.value();
        if !is_nothing(value.text) {
            return value_marks(alloc, names, key, value);
        }
        let mut marks = Vec::new(alloc.clone()?);
        let characters = characters_of(alloc.clone()?, key)?;
        if let Some((kind, place)) = self.empty_kind(characters.as_slice()) {
            let name = String::new(alloc);
            marks.push(Mark { kind, place, name })?;
        }
        Ok(marks)
    }

    /// What is told of a declaration of this key, each kind once, where these names have a value.
    pub fn marks<N: Names, A: Allocator + Clone>(
        self,
        alloc: A,
        names: &N,
        key: &str,
    ) -> Result<Vec<Mark<A>, A>, AllocError>
        ensures { IfOk result (λ marks. marks_of marks.items
            ≡ line_marks (N.has_value names.now) key.now self.entry.dialect self.entry.start
            self.entry.text.now) }
    {
        let mut marks = self.value_marks(alloc, names, key)?;
        tell_found(&mut marks, self.suspect_kind())?;
        Ok(marks)
    }
}
