//! Reads a value, and keeps what is told of it.

ghost use Rattle.std.specs.Prelude.{◌≡◌, IfOk, OnOk, encode_utf8_all, string_bytes};
ghost use Rattle.dotenvy_format.specs.Characters.{begins_passing, is_quote};
ghost use Rattle.dotenvy_findings.specs.Readings.{asked_of, begun, fault_of, has_kind, is_braced, kind_place, marks_of, name_after, name_place, reading_of, text_behind, told_character, told_kind, value_marks, with_end, with_ended, with_mark, with_name, with_step, IsSame};

use crate::characters::is_letter;
use crate::cursor::Cursor;
use crate::kind::Kind;
use crate::marks::character_kind;
use crate::names::{Names, unknown_kind, written_kind};
use crate::place::Place;
use crate::state::{Before, State, ends_name, stays};
use dotenvy_format::dialect::Dialect;
use dotenvy_format::text::Quoting;
use std::alloc::{AllocError, Allocator};

/// Something that is told of a place of a value.
#[derive(Drop)]
pub struct Mark<A: Allocator> {
    /// What is told.
    pub kind: Kind,
    /// Where.
    pub place: Place,
    /// The name that has no value yet, where that is told; else the empty text.
    pub name: String<A>,
}

// A value that is being read, and what was told of it so far: each kind once.
#[derive(Drop)]
struct Reading<'a, N: Names, A: Allocator> {
    names: &'a N,
    // The name that the value is for.
    key: &'a str,
    value: &'a [char],
    cursor: Cursor,
    // The name that is being read.
    name: Vec<char, A>,
    marks: Vec<Mark<A>, A>,
}

/// Whether something of this kind was told.
pub(crate) fn has_kind<A: Allocator>(marks: &[Mark<A>], kind: Kind) -> bool
    ensures { result ≡ has_kind kind (marks_of marks.now) }
{
    let mut rest = marks;
    'marks: while let Some((first, after)) = rest.split_first() {
        if first.kind.number() == kind.number() {
            return true;
        }
        rest = after;
    }
    false
}

// Where something is told of a character: at it, or at the quote that takes it.
fn kind_place(kind: Kind, cursor: &Cursor) -> Place
    ensures { result ≡ kind_place kind cursor.now }
{
    match kind {
        Kind::QuoteInComment => cursor.quote,
        _ => cursor.place,
    }
}

// Where something is told of the writing of a name: at its dollar, or at what ends it.
fn name_place(kind: Kind, cursor: &Cursor) -> Place
    ensures { result ≡ name_place kind cursor.now }
{
    match kind {
        Kind::NameBeforeUnderscore | Kind::TextAfterName => cursor.place,
        _ => cursor.opener,
    }
}

// The character that ends a name, if it is text.
fn text_behind(cursor: Cursor, c: char) -> Option<char>
    ensures { result ≡ text_behind cursor c }
{
    match (cursor.dialect, cursor.state, c) {
        (_, State::Braced(_), _) | (_, _, '$') => None,
        (Dialect::Next, State::Dollar(Quoting::DoubleQuoted), '"') => None,
        (Dialect::Next, State::Bare(Quoting::DoubleQuoted), '"') => None,
        _ => Some(c),
    }
}

// Whether a value begins with a quote.
fn is_quoted(value: &[char]) -> bool
    ensures { result ≡ begins_passing is_quote value.now }
{
    matches!(value.first(), Some('\'' | '"'))
}

// What is told of a character; but a quote in a value that begins with one is no mistake, unless it follows a letter or
// a number.
fn told_kind(cursor: Cursor, c: char, value: &[char], rest: &[char]) -> Option<Kind>
    ensures { result ≡ told_kind cursor c value.now rest.now }
{
    match character_kind(cursor.state, cursor.before, c, rest) {
        Some(Kind::DroppedQuotes) if is_quoted(value) && !is_letter(cursor.before) => None,
        told => told,
    }
}

// Whether the state is that of a name in braces.
fn is_braced(state: State) -> bool
    ensures { result ≡ is_braced state }
{
    matches!(state, State::Braced(_))
}

// The text of these characters.
fn text_of<A: Allocator>(alloc: A, characters: &[char]) -> Result<String<A>, AllocError>
    ensures { IfOk result (λ text. string_bytes text ≡ encode_utf8_all characters.now) }
{
    let mut text = String::new(alloc);
    let mut rest = characters;
    'characters: while let Some((first, after)) = rest.split_first() {
        text.push(*first)?;
        rest = after;
    }
    Ok(text)
}

impl<'a, N: Names, A: Allocator + Clone> Reading<'a, N, A> {
    // Tells something, if nothing of its kind was told before.
    fn tell(&mut self, kind: Kind, place: Place, name: String<A>) -> Result<(), AllocError>
        ensures reads { OnOk result (reading_of self.new
            ≡ with_mark kind place (string_bytes name) (reading_of self.old)) }
        ensures same { OnOk result (IsSame self.old self.new) }
    {
        if !has_kind(self.marks.as_slice(), kind) {
            self.marks.push(Mark { kind, place, name })?;
        }
        Ok(())
    }

    // Tells what there is of the name that was read, by the character that ends it.
    fn tell_name(&mut self, follows: Option<char>) -> Result<(), AllocError>
        ensures reads { OnOk result (reading_of self.new
            ≡ with_name (N.has_value self.old.names.now) self.old.key.now follows (reading_of self.old)) }
        ensures same { OnOk result (IsSame self.old self.new) }
    {
        let alloc = self.name.allocator().clone()?;
        let is_braced = is_braced(self.cursor.state);
        let opener = self.cursor.opener;
        let name = text_of(alloc.clone()?, self.name.as_slice())?;
        let is_known = self.names.has(name.as_str());
        if is_braced && is_known {
            return Ok(());
        }
        if let Some(kind) = written_kind(self.cursor.state, self.name.as_slice(), follows) {
            let place = name_place(kind, &self.cursor);
            return self.tell(kind, place, String::new(alloc));
        }
        if is_known {
            return Ok(());
        }
        let is_own = name.as_str() == self.key;
        self.tell(unknown_kind(is_braced, is_own), opener, name)
    }

    // Keeps the name that is being read, with one more character.
    fn keep_name(&mut self, next: State, c: char) -> Result<(), AllocError>
        ensures reads { OnOk result (reading_of self.new ≡ name_after next c (reading_of self.old)) }
        ensures same { OnOk result (IsSame self.old self.new) }
    {
        match (self.cursor.state, next) {
            (_, State::Dollar(_)) => self.name.clear(),
            (_, State::Bare(_)) | (State::Braced(_), State::Braced(_)) => self.name.push(c)?,
            _ => {}
        }
        Ok(())
    }

    // Tells what there is of a name that ends before or with this character.
    fn tell_ended(&mut self, c: char) -> Result<(), AllocError>
        ensures reads { OnOk result (reading_of self.new
            ≡ with_ended (N.has_value self.old.names.now) self.old.key.now c (reading_of self.old)) }
        ensures same { OnOk result (IsSame self.old self.new) }
    {
        if ends_name(self.cursor.dialect, self.cursor.state, c) {
            self.tell_name(text_behind(self.cursor, c))
        } else {
            Ok(())
        }
    }

    // Tells what there is of this character, behind which is the rest.
    fn tell_character(&mut self, c: char, rest: &[char]) -> Result<(), AllocError>
        ensures reads { OnOk result (reading_of self.new
            ≡ told_character c self.old.value.now rest.now (reading_of self.old)) }
        ensures same { OnOk result (IsSame self.old self.new) }
    {
        let alloc = self.name.allocator().clone()?;
        match told_kind(self.cursor, c, self.value, rest) {
            Some(kind) => {
                let place = kind_place(kind, &self.cursor);
                self.tell(kind, place, String::new(alloc))
            }
            None => Ok(()),
        }
    }

    // Reads one more character, which is the first of what is left.
    fn step(&mut self, c: char, left: &[char], rest: &[char]) -> Result<(), AllocError>
        ensures reads { OnOk result (reading_of self.new
            ≡ with_step (asked_of N.has_value self.old) c left.now rest.now (reading_of self.old)) }
        ensures same { OnOk result (IsSame self.old self.new) }
    {
        if stays(self.cursor.state, self.cursor.before, c) {
            self.cursor.place = self.cursor.place.after(c);
            self.cursor.before = Some(c);
            return Ok(());
        }
        self.tell_ended(c)?;
        self.tell_character(c, rest)?;
        let after = self.cursor.after(c, self.value, left);
        self.keep_name(after.state, c)?;
        self.cursor = after;
        Ok(())
    }

    // Tells what there is at the end of the value.
    fn tell_end(&mut self) -> Result<(), AllocError>
        ensures reads { OnOk result (reading_of self.new
            ≡ with_end (N.has_value self.old.names.now) self.old.key.now (reading_of self.old)) }
    {
        match self.cursor.state {
            State::Dollar(Quoting::Unquoted) | State::Bare(Quoting::Unquoted) => {
                self.tell_name(None)
            }
            State::Escaped(Quoting::Unquoted) => {
                let alloc = self.name.allocator().clone()?;
                let place = self.cursor.opener;
                self.tell(Kind::DroppedBackslash, place, String::new(alloc))
            }
            _ => Ok(()),
        }
    }
}

/// A value that is to be read.
#[derive(Clone, Copy)]
pub struct Value<'a> {
    /// How it is read.
    pub dialect: Dialect,
    /// Its characters.
    pub text: &'a [char],
    /// The place of the first of them.
    pub start: Place,
}

impl<'a> Value<'a> {
    // A cursor at its start.
    fn cursor(self) -> Cursor
        ensures { result ≡ begun self.entry.dialect self.entry.start }
    {
        Cursor {
            dialect: self.dialect,
            start: self.start,
            state: State::Outside(Before::Start),
            place: self.start,
            quote: self.start,
            opener: self.start,
            before: None,
            ended: None,
            swallowed: None,
        }
    }

    /// The cause and the place of its fault, if it is no value.
    pub fn fault(self) -> (Kind, Place)
        ensures { result
            ≡ fault_of self.entry.dialect self.entry.start self.entry.text.now }
    {
        let mut cursor = self.cursor();
        let mut left = self.text;
        'characters: while let Some((first, after)) = left.split_first() {
            cursor = cursor.after(*first, self.text, left);
            left = after;
        }
        cursor.value_fault()
    }
}

/// What is told of a value, each kind once, where it is for this key and these names have a value.
pub fn value_marks<N: Names, A: Allocator + Clone>(
    alloc: A,
    names: &N,
    key: &str,
    value: Value<'_>,
) -> Result<Vec<Mark<A>, A>, AllocError>
    ensures { IfOk result (λ marks. marks_of marks.items
        ≡ value_marks (record { known = N.has_value names.now; key = key.now; value = value.entry.text.now })
        value.entry.dialect value.entry.start) }
{
    let mut reading = Reading {
        names,
        key,
        value: value.text,
        cursor: value.cursor(),
        name: Vec::new(alloc.clone()?),
        marks: Vec::new(alloc.clone()?),
    };
    let mut left = value.text;
    'characters: while let Some((first, rest)) = left.split_first() {
        reading.step(*first, left, rest)?;
        left = rest;
    }
    reading.tell_end()?;
    let Reading {
        names: _,
        key: _,
        value: _,
        cursor: _,
        name: _,
        marks,
    } = reading;
    Ok(marks)
}
