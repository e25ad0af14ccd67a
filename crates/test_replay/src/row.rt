//! A row of a file of cases: its kind, its name and its fields.

use anyhow::{Context, Result, bail};
use std::alloc::{AllocError, Global};

/// A row. Its fields are as they are written.
#[derive(Drop)]
pub struct Row<'a> {
    pub kind: &'a str,
    pub name: &'a str,
    pub fields: Vec<&'a str>,
}

impl<'a> Row<'a> {
    /// The row of a line, and `None` of an empty line and of a comment.
    pub fn parse(alloc: Global, line: &'a str) -> Result<Option<Row<'a>>> {
        if line.is_empty() || line.starts_with('#') {
            return Ok(None);
        }
        let mut fields = line.split('|');
        let kind = fields.next().context("no kind")?;
        let name = fields.next().context("no name")?;
        Ok(Some(Row {
            kind,
            name,
            fields: fields.collect(alloc)?,
        }))
    }
}

// A text that is written once for each of these numbers.
#[derive(Clone, Copy)]
struct Numbered<'a> {
    first: u32,
    last: u32,
    text: &'a str,
}

impl<'a> Numbered<'a> {
    // What `9..11*A%#` says, if it says this.
    fn parse(written: &'a str) -> Option<Numbered<'a>> {
        let (numbers, text) = written.split_once('*')?;
        let (first, last) = numbers.split_once("..")?;
        Some(Numbered {
            first: first.parse().ok()?,
            last: last.parse().ok()?,
            text,
        })
    }

    // Adds the text for each number, which takes the place of `%#`.
    fn push(self, line: &mut String) -> std::result::Result<(), AllocError> {
        let alloc = *line.allocator();
        for number in self.first..=self.last {
            let digits = format!(in alloc; "{number}")?;
            line.push_str(self.text.replace(alloc, "%#", digits.as_str())?.as_str())?;
        }
        Ok(())
    }
}

/// The line, with each text such as `%(9..11*A%#; )` written once for each number: `A9; A10; A11; `.
pub fn with_numbers(alloc: Global, line: &str) -> std::result::Result<String, AllocError> {
    let mut written = String::new(alloc);
    let mut parts = line.split("%(");
    if let Some(first) = parts.next() {
        written.push_str(first)?;
    }
    for part in parts {
        let (inside, rest) = part.split_once(')').unwrap_or((part, ""));
        match Numbered::parse(inside) {
            Some(numbered) => {
                numbered.push(&mut written)?;
                written.push_str(rest)?;
            }
            None => {
                written.push_str("%(")?;
                written.push_str(part)?;
            }
        }
    }
    Ok(written)
}

/// Refuses a row whose kind has another count of fields.
pub fn refuse_count(fields: &[&str], wanted: usize) -> Result<()> {
    bail!("{} fields in place of {wanted}", fields.len())
}
