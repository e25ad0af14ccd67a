//! Classes of characters (docs/GRAMMAR.md, "Characters" and "Keys").

ghost use Rattle.std.specs.Prelude.{◌≡◌};
ghost use Rattle.dotenvy_format.specs.Characters.{allows_underscore, begins_key, continues_key, is_blank, is_name_character};
ghost use Rattle.dotenvy_format.specs.inside.Slices.{is_name_byte};

use crate::dialect::Dialect;
use unicode::properties::{GeneralCategory, is_alphabetic};

/// Whether a key may begin with this character: an ASCII letter or `_`.
pub fn begins_key(character: char) -> bool
    ensures { result ≡ begins_key character }
{
    character.is_ascii_alphabetic() || character == '_'
}

/// Whether a key may go on with this character: an ASCII letter or digit, `_` or `.`.
pub fn continues_key(character: char) -> bool
    ensures { result ≡ continues_key character }
{
    begins_key(character) || character.is_ascii_digit() || character == '.'
}

/// Whether the character is a blank: Unicode white space other than a line feed and a carriage return.
pub fn is_blank(character: char) -> bool
    ensures { result ≡ is_blank character }
{
    character.is_whitespace() && character != '\n' && character != '\r'
}

/// Whether a bare name, which is one after a dollar without braces, may have `_` in this dialect.
pub fn allows_underscore(dialect: Dialect) -> bool
    ensures { result ≡ allows_underscore dialect }
{
    match dialect {
        Dialect::V15 => false,
        Dialect::Next => true,
    }
}

/// Whether the byte is an ASCII character of a bare name.
#[inline(always)]
pub fn is_name_byte(dialect: Dialect, byte: u8) -> bool
    ensures { result ≡ is_name_byte dialect byte }
{
    byte.is_ascii_alphanumeric() || (allows_underscore(dialect) && byte == b'_')
}

/// Whether a bare name may have this character: alphabetic or a number in Unicode, or `_` in the second dialect.
#[tactic(auto, unfolding(crate::specs::Characters::is_name_character))]
pub fn is_name_character(dialect: Dialect, character: char) -> bool
    ensures { result ≡ is_name_character dialect character }
{
    if character.is_ascii() {
        return is_name_byte(dialect, character as u8);
    }
    is_alphabetic(character)
        || matches!(
            GeneralCategory::for_char(character),
            GeneralCategory::DecimalNumber
                | GeneralCategory::LetterNumber
                | GeneralCategory::OtherNumber
        )
}
