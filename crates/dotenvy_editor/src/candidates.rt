//! Lines that may set a key, and the first of them that reads back. Each is read as a file.

ghost use Rattle.std.specs.Prelude.{◌≡◌, ◌↔◌, ◌∷◌, [], ◌++◌, IfOk, IsTrue, None, chars, encode_utf8_all, option_map, string_bytes, true};
ghost use Rattle.std.specs.Str.{IsUtf8};
ghost use Rattle.dotenvy.specs.Keys.{is_key};
ghost use Rattle.dotenvy_editor.specs.Assignments.{spot_text};
ghost use Rattle.dotenvy_editor.specs.Edits.{new_spot};
ghost use Rattle.dotenvy_editor.specs.Ends.{IsEnd};
ghost use Rattle.dotenvy_editor.specs.Forms.{candidates, comment_of, form_lines, form_text, old_forms, where_true};
ghost use Rattle.dotenvy_editor.specs.Lines.{IsWritten, WritesLine};
ghost use Rattle.dotenvy_editor.specs.Portable.{value_refusal};
ghost use Rattle.dotenvy_editor.specs.inside.Tried.{FindsFirst, IsSaidBy, IsUnwritten, IsWrittenAlone, Writes};
ghost use Rattle.dotenvy_editor.specs.inside.Tried.{forms_for, may_have, texts_of};

use crate::forms::{Form, has, is_word, old_quotes, push_form};
use crate::lines::Lines;
use crate::portable;
use crate::refusal::{Reason, Unportable};
use crate::spot::Spot;
use crate::values::{Said, is_same, means, said_by};
use crate::writing::Setting;
use std::alloc::{AllocError, Allocator};

const FORMS: [Form; 4] = [Form::Plain, Form::Single, Form::Double, Form::OneLine];

// Three texts as one.
fn joined<A: Allocator>(
    alloc: A,
    first: &str,
    second: &str,
    third: &str,
) -> Result<String<A>, AllocError>
    ensures { IfOk result (λ text. string_bytes text
        ≡ encode_utf8_all (chars first.now ++ (chars second.now ++ chars third.now))) }
{
    let mut text = String::from_str(alloc, first)?;
    text.push_str(second)?;
    text.push_str(third)?;
    Ok(text)
}

impl Setting<'_> {
    // Whether a line may be written with this form before this comment.
    fn fits(&self, form: Form, comment: &str) -> bool
        ensures { result ≡ may_have self.now.how.is_portable (chars self.now.value.now)
            (chars comment.now) form }
    {
        if self.how.is_portable {
            return portable::fits(form, self.value, comment);
        }
        match form {
            Form::Plain => is_word(self.value),
            Form::Single => !has(self.value, '\''),
            Form::Double => true,
            Form::OneLine => false,
        }
    }

    /// Why no line reads back with the value in this spot.
    pub(crate) fn unwritten(&self, spot: Spot<'_>) -> Reason
        ensures { IsUnwritten self.now.how (chars self.now.value.now) (texts_of spot.entry) result }
    {
        if !self.how.is_portable {
            return Reason::LongComment;
        }
        if portable::has_white_space(spot) {
            return Reason::Unportable(Unportable::WhiteSpace);
        }
        if portable::has_form(self.value, spot.comment()) {
            Reason::LongComment
        } else {
            Reason::Unportable(Unportable::Comment)
        }
    }

    // Whether the text gives the key this value, whatever names stand for.
    fn is_said_by(&self, text: &str) -> bool
        ensures { IsTrue result ↔ IsSaidBy self.now (chars text.now) }
    {
        match said_by(text) {
            Said::Statement(statement) => {
                is_same(statement.key, self.key)
                    && means(statement.rest, self.value, self.how.dialect)
            }
            Said::Nothing | Said::Fault => false,
        }
    }

    // Whether these bytes are one logical line that gives the key this value, whatever names stand for.
    fn is_written<A: Allocator + Clone>(&self, alloc: A, bytes: &[u8]) -> Result<bool, AllocError>
        ensures { IfOk result (λ is. IsTrue is ↔ IsWritten self.now.how.dialect
            (chars self.now.key.now) (chars self.now.value.now) bytes.now []) }
    {
        let mut lines = Lines::new(alloc, bytes)?;
        match lines.advance()? {
            Some(slice) if slice.is_text() && slice.bytes.len() == bytes.len() => {
                Ok(self.is_said_by(lines.text()))
            }
            _ => Ok(false),
        }
    }

    // The line with these parts, if it reads back.
    fn tried<A: Allocator + Clone>(
        &self,
        alloc: &A,
        spot: Spot<'_>,
    ) -> Result<Option<String<A>>, AllocError>
        ensures { IfOk result (λ found. FindsFirst (IsWrittenAlone self.now)
            (spot_text (texts_of spot.entry) ∷ []) (option_map string_bytes found)) }
    {
        let line = joined(alloc.clone()?, spot.front, spot.old, spot.rest)?;
        let is_written = self.is_written(alloc.clone()?, line.as_bytes())?;
        if is_written { Ok(Some(line)) } else { Ok(None) }
    }

    // The first line with this form that reads back: no comment is cut, and none goes.
    fn first_tail<A: Allocator + Clone>(
        &self,
        alloc: &A,
        spot: Spot<'_>,
        form: Form,
    ) -> Result<Option<String<A>>, AllocError>
        ensures { IfOk result (λ found. FindsFirst (IsWrittenAlone self.now)
            (form_lines (texts_of spot.entry) (form_text form (chars self.now.value.now)))
            (option_map string_bytes found)) }
    {
        let Spot { front, rest, .. } = spot;
        let comment = spot.comment();
        let mut written = String::new(alloc.clone()?);
        push_form(&mut written, form, self.value)?;
        let old = written.as_str();
        if let Some(line) = self.tried(alloc, Spot { front, old, rest })? {
            return Ok(Some(line));
        }
        if comment.is_empty() {
            let rest = spot.end();
            return self.tried(alloc, Spot { front, old, rest });
        }
        if spot.has_long_comment() {
            return Ok(None);
        }
        written.push(' ')?;
        let old = written.as_str();
        let rest = comment;
        self.tried(alloc, Spot { front, old, rest })
    }

    // The first line with this form that reads back, if the value may have the form.
    fn first_fitting<A: Allocator + Clone>(
        &self,
        alloc: &A,
        spot: Spot<'_>,
        form: Form,
    ) -> Result<Option<String<A>>, AllocError>
        ensures { IfOk result (λ found. FindsFirst (IsWrittenAlone self.now)
            (candidates (texts_of spot.entry) (where_true (may_have self.now.how.is_portable
            (chars self.now.value.now) (comment_of (texts_of spot.entry).rest) form)
            (form_text form (chars self.now.value.now))))
            (option_map string_bytes found)) }
    {
        if self.fits(form, spot.comment()) {
            self.first_tail(alloc, spot, form)
        } else {
            Ok(None)
        }
    }

    // The first line with a form of the value that reads back.
    fn first_form<A: Allocator + Clone>(
        &self,
        alloc: &A,
        spot: Spot<'_>,
    ) -> Result<Option<String<A>>, AllocError>
        ensures { IfOk result (λ found. FindsFirst (IsWrittenAlone self.now)
            (candidates (texts_of spot.entry) (forms_for self.now.how.is_portable
            (chars self.now.value.now) (comment_of (texts_of spot.entry).rest)))
            (option_map string_bytes found)) }
    {
        'forms: for form in FORMS {
            if let Some(line) = self.first_fitting(alloc, spot, form)? {
                return Ok(Some(line));
            }
        }
        Ok(None)
    }

    // The line as it is if it reads back, or else the first with the old quotes that does, where they need no escape.
    fn first_kept<A: Allocator + Clone>(
        &self,
        alloc: &A,
        spot: Spot<'_>,
    ) -> Result<Option<String<A>>, AllocError>
        ensures { IfOk result (λ found. FindsFirst (IsWrittenAlone self.now)
            (spot_text (texts_of spot.entry) ∷ candidates (texts_of spot.entry)
            (old_forms (chars spot.entry.old.now) (chars self.now.value.now)))
            (option_map string_bytes found)) }
    {
        if let Some(line) = self.tried(alloc, spot)? {
            return Ok(Some(line));
        }
        match old_quotes(spot.old, self.value) {
            Some(form) => self.first_tail(alloc, spot, form),
            None => Ok(None),
        }
    }

    /// The first line in this spot that reads back: as it is, with the old quotes, or with a form that the value may
    /// have. For other readers, too, it has a form that they give alike, and no white space but spaces around.
    pub(crate) fn first_written<A: Allocator + Clone>(
        &self,
        alloc: &A,
        spot: Spot<'_>,
    ) -> Result<Option<String<A>>, AllocError>
        ensures { IfOk result (λ found. Writes self.now (texts_of spot.entry)
            (option_map string_bytes found)) }
    {
        if self.how.is_portable {
            if portable::has_white_space(spot) {
                return Ok(None);
            }
            return self.first_form(alloc, spot);
        }
        match self.first_kept(alloc, spot)? {
            Some(line) => Ok(Some(line)),
            None => self.first_form(alloc, spot),
        }
    }

    /// The first line with this end that reads back, for a file in which no line assigns the key. There always is one:
    /// the value has a form in quotes, and these read back.
    pub(crate) fn new_line<A: Allocator + Clone>(
        &self,
        alloc: &A,
        end: &str,
    ) -> Result<String<A>, AllocError>
        requires key { IsTrue (is_key (chars self.now.key.now)) }
        requires utf8 { IsUtf8 self.now.value.now }
        requires value { self.now.how.is_portable ≡ true →
            value_refusal (chars self.now.value.now) ≡ None }
        requires end { IsEnd end.now }
        ensures { IfOk result (λ line. WritesLine self.now.how (chars self.now.key.now)
            (chars self.now.value.now) (new_spot (chars self.now.key.now) end.now) []
            (string_bytes line)) }
    {
        let front = joined(alloc.clone()?, self.key, "=", "")?;
        let spot = Spot {
            front: front.as_str(),
            old: "",
            rest: end,
        };
        match self.first_written(alloc, spot)? {
            Some(line) => Ok(line),
            None => unreachable!(),
        }
    }
}
