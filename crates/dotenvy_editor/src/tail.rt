//! Where a value ends before blanks and a comment, found character by character.

ghost use Rattle.std.specs.Prelude.{◌≡◌, chars};
ghost use Rattle.dotenvy.specs.Characters.{byte_len};
ghost use Rattle.dotenvy_editor.specs.Tails.{after, after_base, after_name, is_tail, meant_part};

use dotenvy::Dialect;
use dotenvy_format::classes::is_name_character;
use dotenvy_format::text::{Quoting, split_first};

/// What the next character of a value belongs to.
#[derive(Clone, Copy)]
pub(crate) enum Reading {
    /// A part that begins with it.
    Base(Quoting),
    /// A backslash before it.
    Escaping(Quoting),
    /// A text in single quotes.
    Single,
    /// A dollar right before it.
    Dollar(Quoting),
    /// A bare name.
    Name(Quoting),
    /// A name in braces.
    Brace(Quoting),
    /// Blanks and a comment, which mean nothing.
    Tail,
}

// What follows a character with which a part begins.
fn after_base(quoting: Quoting, c: char) -> Reading
    ensures { result ≡ after_base quoting c }
{
    match quoting {
        Quoting::Unquoted => match c {
            '\\' => Reading::Escaping(quoting),
            '\'' => Reading::Single,
            '"' => Reading::Base(Quoting::DoubleQuoted),
            '$' => Reading::Dollar(quoting),
            ' ' | '\t' => Reading::Tail,
            _ => Reading::Base(quoting),
        },
        Quoting::DoubleQuoted => match c {
            '\\' => Reading::Escaping(quoting),
            '"' => Reading::Base(Quoting::Unquoted),
            '$' => Reading::Dollar(quoting),
            _ => Reading::Base(quoting),
        },
    }
}

// What follows a character after a dollar or a bare name.
fn after_name(dialect: Dialect, quoting: Quoting, c: char) -> Reading
    ensures { result ≡ after_name dialect quoting c }
{
    if is_name_character(dialect, c) {
        return Reading::Name(quoting);
    }
    match (dialect, quoting) {
        (Dialect::Next, Quoting::DoubleQuoted) if c == '"' => after_base(quoting, c),
        _ if c == '$' => after_base(quoting, c),
        _ => Reading::Base(quoting),
    }
}

impl Reading {
    // What follows a character of a value.
    pub(crate) fn after(self, dialect: Dialect, c: char) -> Reading
        ensures { result ≡ after dialect self c }
    {
        match self {
            Reading::Base(quoting) => after_base(quoting, c),
            Reading::Escaping(quoting) => Reading::Base(quoting),
            Reading::Single if c == '\'' => Reading::Base(Quoting::Unquoted),
            Reading::Dollar(quoting) if c == '{' => Reading::Brace(quoting),
            Reading::Dollar(quoting) | Reading::Name(quoting) => after_name(dialect, quoting, c),
            Reading::Brace(quoting) if c == '}' => Reading::Base(quoting),
            Reading::Single | Reading::Brace(_) | Reading::Tail => self,
        }
    }

    fn is_tail(self) -> bool
        ensures { result ≡ is_tail self }
    {
        matches!(self, Reading::Tail)
    }
}

/// The length of a value without a space or tab that ends it, and what follows that.
pub(crate) fn meant_len(value: &str, dialect: Dialect) -> usize
    ensures { result ≡ byte_len (meant_part dialect (Reading.Base Quoting.Unquoted)
        (chars value.now)) }
{
    let mut reading = Reading::Base(Quoting::Unquoted);
    let mut rest = value;
    'characters: while let Some((first, later)) = split_first(rest) {
        reading = reading.after(dialect, first);
        if reading.is_tail() {
            return value.len() - rest.len();
        }
        rest = later;
    }
    value.len()
}
