//! Reads what is assigned, piece by piece (docs/GRAMMAR.md, from "Values" to "Substitution").

ghost use Rattle.std.specs.Prelude.{◌≡◌, ◌<◌, ◌==◌, [], IsTrue, MatchOption, false, length};
ghost use Rattle.std.specs.List.{prefix_len};
ghost use Rattle.std.specs.Str.{chars, IsUtf8};
ghost use Rattle.dotenvy_format.specs.inside.Slices.{IsSpan};
ghost use Rattle.dotenvy_format.specs.inside.ReadValue.{base, escaping, in_single, naming, in_tail};
ghost use Rattle.dotenvy_format.specs.Characters.{backslash, begins_passing};
ghost use Rattle.dotenvy_format.specs.Value.{is_left_by_name, is_plain};
ghost use Rattle.dotenvy_format.specs.inside.NextPiece.{other_quoting, kind_of, begins_text, begins_text_by, piece_of};
ghost use Rattle.dotenvy_format.specs.inside.NextPiece.{Escapes, MeansText, NextPieceIs, IsShorter};

use crate::dialect::Dialect;
use crate::text::{Class, Quoting, is_empty_or_comment, row_len, split_first, split_while};

/// What a part of a value means. Several parts may be read as one piece.
#[derive(Clone, Copy)]
pub enum Piece<'a> {
    /// This text.
    Text(&'a str),
    /// What the name stands for, and then the text `after`, which is one character or empty.
    Name { name: &'a str, after: &'a str },
    /// What the empty name stands for, once and `more` times more: these dollars have no name after them.
    EmptyNames { more: usize },
    /// Nothing: a backslash at the end of the value.
    LastBackslash,
}

/// A piece, and where the value goes on.
#[derive(Clone, Copy)]
pub struct Given<'a> {
    pub piece: Piece<'a>,
    /// What is left of the value after the piece.
    pub rest: &'a str,
    /// Whether the rest begins in double quotes.
    pub quoting: Quoting,
}

/// A text that a part of a value means, and where the value goes on.
#[derive(Clone, Copy)]
pub struct TextPart<'a> {
    /// The text.
    pub meant: &'a str,
    /// What is left of the value after the part.
    pub rest: &'a str,
    /// Whether the rest begins in double quotes.
    pub quoting: Quoting,
}

/// What comes next in a value.
#[derive(Clone, Copy)]
pub enum NextPiece<'a> {
    /// A piece.
    Piece(Given<'a>),
    /// The end of the value: nothing is left, or a space or tab and perhaps a comment.
    End,
    /// The text ends, but the value lacks its end: a quote or a brace is open.
    Unfinished,
    /// A fault: no value goes on with this rest of the text.
    Fault(&'a str),
}

// What a character begins.
#[derive(Clone, Copy)]
pub(crate) enum Kind {
    Backslash,
    SingleQuote,
    DoubleQuote,
    Dollar,
    SpaceOrTab,
    Plain,
}

#[inline(always)]
pub(crate) fn kind_of(quoting: Quoting, c: char) -> Kind
    ensures { result ≡ kind_of quoting c }
{
    match quoting {
        Quoting::Unquoted => match c {
            '\\' => Kind::Backslash,
            '\'' => Kind::SingleQuote,
            '"' => Kind::DoubleQuote,
            '$' => Kind::Dollar,
            ' ' | '\t' => Kind::SpaceOrTab,
            _ => Kind::Plain,
        },
        Quoting::DoubleQuoted => match c {
            '\\' => Kind::Backslash,
            '"' => Kind::DoubleQuote,
            '$' => Kind::Dollar,
            _ => Kind::Plain,
        },
    }
}

// Whether this character, right after a bare name, is no text: it begins a substitution, or closes the quotes.
fn is_left_by_name(dialect: Dialect, quoting: Quoting, c: char) -> bool
    ensures { result ≡ is_left_by_name dialect quoting c }
{
    match (dialect, quoting) {
        (Dialect::Next, Quoting::DoubleQuoted) => matches!(c, '$' | '"'),
        _ => c == '$',
    }
}

// What a backslash and this character mean.
#[inline(always)]
fn escaped(c: char) -> Option<&'static str>
    ensures { Escapes c result }
{
    match c {
        '\\' => Some("\\"),
        '\'' => Some("'"),
        '"' => Some("\""),
        '$' => Some("$"),
        ' ' => Some(" "),
        'n' => Some("\n"),
        _ => None,
    }
}

// What so many backslashes in a row after a backslash mean: each two of them mean one, and an odd one is left. The text
// right after those that are meant is taken with them.
#[inline(always)]
fn backslashes(left: &str, more: usize, quoting: Quoting) -> TextPart<'_>
    requires { (0 < more) × (more ≡ prefix_len (λ b. b == backslash) left.now) }
    ensures { (dialect : _) → MeansText dialect (escaping quoting) (chars left.now) result }
{
    let pairs = more / 2 + more % 2;
    let (_, row) = left.split_at(pairs - 1);
    let (_, behind) = left.split_at(2 * pairs - 1);
    let (_, rest) = split_while(behind, Class::Plain(quoting));
    let (meant, _) = row.split_at(row.len() - rest.len());
    TextPart {
        meant,
        rest,
        quoting,
    }
}

// What a backslash and the character after it mean, if that is an escape.
#[inline(always)]
pub(crate) fn escape(left: &str, quoting: Quoting) -> Option<TextPart<'_>>
    ensures { MatchOption result (begins_text_by Kind.Backslash (chars left.now) ≡ false)
        (λ part. (dialect : _) → MeansText dialect (escaping quoting) (chars left.now) part) }
{
    let (first, rest) = split_first(left)?;
    let meant = escaped(first)?;
    Some(TextPart {
        meant,
        rest,
        quoting,
    })
}

// As `escape`, with all of the backslashes in a row.
#[inline(always)]
fn escapes(left: &str, quoting: Quoting) -> Option<TextPart<'_>>
    ensures { MatchOption result (begins_text_by Kind.Backslash (chars left.now) ≡ false)
        (λ part. (dialect : _) → MeansText dialect (escaping quoting) (chars left.now) part) }
{
    let more = row_len(left, b'\\');
    if more > 0 {
        return Some(backslashes(left, more, quoting));
    }
    escape(left, quoting)
}

// What follows a backslash that begins no escape.
fn no_escape(left: &str, quoting: Quoting) -> NextPiece<'_>
    requires { begins_text_by Kind.Backslash (chars left.now) ≡ false }
    ensures { (dialect : _) →
        NextPieceIs dialect (escaping quoting) (chars left.now) result }
{
    match split_first(left) {
        Some(_) => NextPiece::Fault(left),
        None => match quoting {
            Quoting::Unquoted => NextPiece::Piece(Given {
                piece: Piece::LastBackslash,
                rest: left,
                quoting,
            }),
            Quoting::DoubleQuoted => NextPiece::Unfinished,
        },
    }
}

// The text between a single quote outside double quotes and the next one, if there is one.
#[inline(always)]
pub(crate) fn single_quoted(left: &str) -> Option<TextPart<'_>>
    ensures { MatchOption result (begins_text_by Kind.SingleQuote (chars left.now) ≡ false)
        (λ part. (dialect : _) → MeansText dialect (in_single []) (chars left.now) part) }
{
    let (meant, end) = split_while(left, Class::SingleQuoted);
    let (_, rest) = split_first(end)?;
    Some(TextPart {
        meant,
        rest,
        quoting: Quoting::Unquoted,
    })
}

// What follows `$`. The character after a bare name is text, or is left to what follows. Of dollars in a row all but the
// last have an empty name.
fn substitution(left: &str, quoting: Quoting, dialect: Dialect) -> NextPiece<'_>
    ensures { NextPieceIs dialect (naming quoting []) (chars left.now) result }
{
    let dollars = row_len(left, b'$');
    if dollars > 0 {
        let more = dollars - 1;
        let (_, rest) = left.split_at(more);
        return NextPiece::Piece(Given {
            piece: Piece::EmptyNames { more },
            rest,
            quoting,
        });
    }
    if let Some(inner) = left.strip_prefix('{') {
        let Some((name, rest)) = inner.split_once('}') else {
            return NextPiece::Unfinished;
        };
        return NextPiece::Piece(Given {
            piece: Piece::Name { name, after: "" },
            rest,
            quoting,
        });
    }
    let (name, rest) = split_while(left, Class::Name(dialect));
    match split_first(rest) {
        None => match quoting {
            Quoting::Unquoted => NextPiece::Piece(Given {
                piece: Piece::Name { name, after: "" },
                rest,
                quoting,
            }),
            Quoting::DoubleQuoted => NextPiece::Unfinished,
        },
        Some((first, _)) if is_left_by_name(dialect, quoting, first) => NextPiece::Piece(Given {
            piece: Piece::Name { name, after: "" },
            rest,
            quoting,
        }),
        Some((first, follows)) => {
            let (after, _) = rest.split_at(first.len_utf8());
            NextPiece::Piece(Given {
                piece: Piece::Name { name, after },
                rest: follows,
                quoting,
            })
        }
    }
}

// What follows a space or tab outside quotes.
fn tail(left: &str) -> NextPiece<'_>
    ensures { (dialect : _) → NextPieceIs dialect in_tail (chars left.now) result }
{
    let (_, comment) = split_while(left, Class::SpaceOrTab);
    if is_empty_or_comment(comment) {
        NextPiece::End
    } else {
        NextPiece::Fault(comment)
    }
}

// Cuts a text at the first character that does not mean itself. Each call has a class that is known when it is
// compiled, which makes it faster.
#[inline(always)]
fn split_plain(text: &str, quoting: Quoting) -> (&str, &str)
    ensures texts { IsUtf8 result.0.now × IsUtf8 result.1.now }
    ensures span { IsSpan (is_plain quoting) (chars text.now) (chars result.0.now)
        (chars result.1.now) }
{
    match quoting {
        Quoting::Unquoted => split_while(text, Class::Plain(Quoting::Unquoted)),
        Quoting::DoubleQuoted => split_while(text, Class::Plain(Quoting::DoubleQuoted)),
    }
}

// The text up to the first character that does not mean itself.
#[inline(always)]
pub(crate) fn plain(text: &str, quoting: Quoting) -> TextPart<'_>
    requires { IsTrue (begins_passing (is_plain quoting) (chars text.now)) }
    ensures part { (dialect : _) → MeansText dialect (base quoting) (chars text.now) result }
    ensures shorter { length (chars result.rest.now) < length (chars text.now) }
{
    let (meant, rest) = split_plain(text, quoting);
    TextPart {
        meant,
        rest,
        quoting,
    }
}

pub(crate) fn other_quoting(quoting: Quoting) -> Quoting
    ensures { result ≡ other_quoting quoting }
{
    match quoting {
        Quoting::Unquoted => Quoting::DoubleQuoted,
        Quoting::DoubleQuoted => Quoting::Unquoted,
    }
}

// The text in double quotes up to their end, or up to the first character that does not mean itself there.
#[inline(always)]
fn double_quoted(left: &str) -> TextPart<'_>
    ensures { (dialect : _) →
        MeansText dialect (base Quoting.DoubleQuoted) (chars left.now) result }
{
    let (meant, end) = split_while(left, Class::Plain(Quoting::DoubleQuoted));
    match split_first(end) {
        Some(('"', rest)) => TextPart {
            meant,
            rest,
            quoting: Quoting::Unquoted,
        },
        _ => TextPart {
            meant,
            rest: end,
            quoting: Quoting::DoubleQuoted,
        },
    }
}

// What follows a double quote. More of them right after it begin and end parts with no text, so they are taken at once.
#[inline(always)]
fn double_quote(left: &str, quoting: Quoting) -> TextPart<'_>
    ensures { (dialect : _) →
        MeansText dialect (base (other_quoting quoting)) (chars left.now) result }
{
    let (more, rest) = split_while(left, Class::DoubleQuote);
    let quoting = if more.len() % 2 == 0 {
        other_quoting(quoting)
    } else {
        quoting
    };
    match quoting {
        Quoting::Unquoted => TextPart {
            meant: "",
            rest,
            quoting,
        },
        Quoting::DoubleQuoted => double_quoted(rest),
    }
}

/// The text that the next part of a value means, read as by [`next_piece`]; `None` where a name, the end of the value
/// or a fault comes next, or a backslash at the end.
///
/// It is as `next_piece` where that gives a text, and quicker.
#[inline(always)]
pub fn text_part(text: &str, quoting: Quoting) -> Option<TextPart<'_>>
    ensures { MatchOption result (begins_text quoting (chars text.now) ≡ false)
        (λ part. ((dialect : _) → MeansText dialect (base quoting) (chars text.now) part)
        × (length (chars part.rest.now) < length (chars text.now))) }
{
    let (first, left) = split_first(text)?;
    match kind_of(quoting, first) {
        Kind::Backslash => escapes(left, quoting),
        Kind::SingleQuote => single_quoted(left),
        Kind::DoubleQuote => Some(double_quote(left, quoting)),
        Kind::Plain => Some(plain(text, quoting)),
        Kind::Dollar | Kind::SpaceOrTab => None,
    }
}

fn text_piece(part: TextPart<'_>) -> NextPiece<'_>
    ensures { result ≡ piece_of part.entry }
{
    NextPiece::Piece(Given {
        piece: Piece::Text(part.meant),
        rest: part.rest,
        quoting: part.quoting,
    })
}

/// Reads the next piece of a value from what is left of it.
///
/// Begin outside quotes with the whole value, and go on with the `rest` and `quoting` of each piece.
///
/// It is a function and no iterator struct: the prover knows of a parameter and of a result that a `&str` is UTF-8, and
/// after a loop doesn't know it of a field.
#[inline(always)]
pub fn next_piece(text: &str, quoting: Quoting, dialect: Dialect) -> NextPiece<'_>
    ensures next { NextPieceIs dialect (base quoting) (chars text.now) result }
    ensures shorter { IsShorter (chars text.now) result }
{
    match split_first(text) {
        None => match quoting {
            Quoting::Unquoted => NextPiece::End,
            Quoting::DoubleQuoted => NextPiece::Unfinished,
        },
        Some((first, left)) => match kind_of(quoting, first) {
            Kind::Backslash => match escapes(left, quoting) {
                Some(part) => text_piece(part),
                None => no_escape(left, quoting),
            },
            Kind::SingleQuote => match single_quoted(left) {
                Some(part) => text_piece(part),
                None => NextPiece::Unfinished,
            },
            Kind::DoubleQuote => text_piece(double_quote(left, quoting)),
            Kind::Dollar => substitution(left, quoting, dialect),
            Kind::SpaceOrTab => tail(left),
            Kind::Plain => text_piece(plain(text, quoting)),
        },
    }
}
