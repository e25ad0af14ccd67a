//! The pairs of an environment file, one at a time, and the two loads.

ghost use Rattle.std.specs.Prelude.{◌≡◌, ◌≢◌, ◌<◌, ◌≤◌, Err, IfErr, IfOk, IfSome, IsSome, None, Ok, OnOk, OnErr};
ghost use Rattle.std.specs.FinMap as fin;
ghost use Rattle.std.specs.Iterator.{at_most};
ghost use Rattle.dotenvy_lines.specs.declared.lines.Stage.TheVariants.{Failed, Open};
ghost use Rattle.dotenvy_base.specs.Errors.{IsMemory, IsMemoryErr};
ghost use Rattle.dotenvy_lines.specs.Input.{AsksReads};
ghost use Rattle.dotenvy_items.specs.Iter.{fresh, items_measure, AsksBetween, DropsNextMark, HasFailed, IsOpen, KeepsItems, KeepsRemembered, remembering};
ghost use Rattle.dotenvy_base.specs.Environment.{KeepsNames};
ghost use Rattle.dotenvy_format.specs.Run.{Keep, Replace, run};
ghost use Rattle.dotenvy_format.specs.Loads.{load_result, override_result};
ghost use Rattle.dotenvy_lines.specs.Lines.{lines_measure, no_line};
ghost use Rattle.dotenvy_items.specs.inside.ItemStep.{lines_after, AddsLine, GivesNext};
ghost use Rattle.dotenvy_items.specs.Iter.{state_of};
ghost use Rattle.dotenvy_items.specs.NextItem.{unnumbered, GivesKey, GivesName, IsNumbered, NextItem};
ghost use Rattle.dotenvy_items.specs.LoadsRest.{ChangesOnlyKeys, LoadsRest, OnlyAdds};
ghost use Rattle.dotenvy_items.specs.LoadStops.{Stops};
ghost use Rattle.dotenvy_items.specs.inside.LoadStep.{mode_of, LoadIs};

use crate::loads::{Mode, load_line};
use crate::parse::{Line, Pair, parse_line};
use crate::remembered::{Remembered, remember_all};
use dotenvy_base::environment::Environment;
use dotenvy_base::errors::{Error, Result};
use dotenvy_base::source::Source;
use dotenvy_format::dialect::Dialect;
use dotenvy_lines::lines::Splitter;
use std::alloc::{Allocator, Global};
use std::collections::HashMap;
use std::marker::Model;

/// Reads the pairs of an environment file, one at a time, and remembers their values for those after them.
///
/// A fault of the grammar, or a line that isn't UTF-8, is one item; the iterator then goes on at the next physical
/// line. After the end, after a reader's own fault, after the bound on reads (2^32) and after refused memory it gives
/// `None` for good (docs/GRAMMAR.md, "Reading").
///
/// ```text
/// let mut file = Iter::new(alloc, Bytes::new(b"A=1\nB=$A\n"))?;
/// file.next_item(&env)    // Some(Ok(("A", "1")))
/// file.next_item(&env)    // Some(Ok(("B", "1")))
/// file.next_item(&env)    // None
/// ```
#[derive(Drop)]
pub struct Iter<R: Source, A: Allocator = Global> {
    reading: Reading<R, A>,
    // The first and the last physical line of the last item.
    item_lines: (u64, u64),
}

impl<R: Source, A: Allocator> Model for Iter<R, A> {
    ghost use Rattle.dotenvy_items.specs.Iter.{IterState, iter_code};
    ghost use Rattle.dotenvy_items.specs.inside.Reading.{reads_on};

    ghost Value = { IterState };

    ghost coded = { iter_code };

    ghost view = { λ s. reads_on s.reading s.item_lines };
}

// What an iterator reads, and what it remembers.
#[derive(Drop)]
struct Reading<R: Source, A: Allocator = Global> {
    lines: Splitter<R, A>,
    remembered: Remembered<A>,
    dialect: Dialect,
}

impl<R: Source, A: Allocator> Model for Reading<R, A> {
    ghost use Rattle.dotenvy_items.specs.inside.Reading.{ReadingState, reading_code};
    ghost use Rattle.dotenvy_items.specs.Remembered.{remembered_of};

    ghost Value = { ReadingState };

    ghost coded = { reading_code };

    ghost view = { λ s.
        record {
          lines = s.lines.lines;
          line = s.lines.line;
          remembered = remembered_of s.remembered.entries;
          dialect = s.dialect;
        } };
}

/// An iterator over these lines, of which no item was taken, and that remembers nothing.
pub fn over_lines<R: Source, A: Allocator>(
    lines: Splitter<R, A>,
    alloc: A,
    dialect: Dialect,
) -> Iter<R, A>
    ensures { result ≡ state_of lines.lines fin.empty dialect no_line }
{
    let reading = Reading {
        lines,
        remembered: HashMap::new(alloc),
        dialect,
    };
    Iter {
        reading,
        item_lines: (0, 0),
    }
}

/// Gives back the reader of an iterator. Bytes that were read and not used are lost.
pub fn into_reader<R: Source, A: Allocator>(file: Iter<R, A>) -> R
    ensures calls { (R.told result).calls ≡ file.lines.input.calls }
    ensures references { (R.told result).references ≡ file.lines.input.references }
{
    let Iter {
        reading,
        item_lines: _,
    } = file;
    let Reading {
        lines,
        remembered: _,
        dialect: _,
    } = reading;
    lines.into_reader()
}

impl<R: Source, A: Allocator + Clone> Iter<R, A> {
    /// A fresh iterator over a reader, in the first dialect. Nothing is read yet.
    ///
    /// The error is `Memory`.
    pub fn new(alloc: A, reader: R) -> Result<Iter<R, A>, A>
    where
        R: Drop,
        ensures ok { IfOk result (λ s. s ≡ fresh (R.told reader) Dialect.V15) }
        ensures memory { IfErr result IsMemory }
    {
        Iter::with_dialect(alloc, reader, Dialect::V15)
    }

    /// As `new`, with the dialect of the file (docs/GRAMMAR.md, "The second dialect").
    pub fn with_dialect(alloc: A, reader: R, dialect: Dialect) -> Result<Iter<R, A>, A>
    where
        R: Drop,
        ensures ok { IfOk result (λ s. s ≡ fresh (R.told reader) dialect) }
        ensures memory { IfErr result IsMemory }
    {
        let lines = Splitter::new(alloc.clone()?, reader)?;
        Ok(over_lines(lines, alloc, dialect))
    }

    /// Remembers the values of an environment: a name that neither an item nor the environment of a call gives means its
    /// value here (docs/GRAMMAR.md, "What a name means").
    ///
    /// The error is `Memory`. Some of the values may be remembered then.
    ///
    /// On `Ok` each value is remembered under its name, in the place of an earlier one.
    ///
    /// ```text
    /// let mut file = Iter::new(alloc, Bytes::new(b"URL=http://$HOST\n"))?;
    /// file.remember(&process)?;
    /// file.load(&mut declared)?;    // of the names of the process it has none but URL
    /// ```
    pub fn remember(&mut self, env: &Environment<A>) -> Result<(), A>
        ensures ok { OnOk result (self.new ≡ remembering env.now.names self.old) }
        ensures memory { IfErr result IsMemory }
    {
        let reading = &mut self.reading;
        remember_all(reading.lines.allocator(), &mut reading.remembered, env)?;
        Ok(())
    }

    /// The next pair or fault. A name that a value mentions means its value in `env`, else the last one remembered,
    /// else the empty text; `env` may be another at each call (docs/GRAMMAR.md, "What a name means").
    ///
    /// Over a reader whose bytes are specified it is the first pair or fault of those that are left. The call uses the
    /// lines that give nothing, then the line of this item, and nothing after that line. The value of a pair is then
    /// remembered under its key; a fault changes nothing that is remembered.
    ///
    /// `None` comes only if no pair and no fault is left, and no read fails after them. A read that fails comes only if
    /// the bytes before it decide no further pair and no further fault. The bound on reads is an `Io` of kind `Other`;
    /// fewer than 2^32 bytes never meet it. After each of these, and after `Memory`, it returns `None`, and nothing
    /// changes.
    pub fn next_item(&mut self, env: &Environment<A>) -> Option<Result<(String<A>, String<A>), A>>
        ensures next { NextItem env.now.names self.old result self.new }
        // A loop up to `None` ends: each item lowers a bound on the items that can still come.
        ensures falls { IsSome result → items_measure self.new < items_measure self.old }
        ensures none { result ≡ None → ¬ (IsOpen self.new) }
        ensures memory { IfSome result (λ item. IsMemoryErr item → HasFailed self.new) }
        // A pair has a key, and so a name that `Environment::set` takes.
        ensures key { GivesKey result }
        ensures name { GivesName result }

        // Which reads it asks for, over every reader that tells its calls.
        ensures asks { AsksBetween self.old self.new }
    {
        let Some(item) = self.reading.next(env) else {
            return None;
        };
        self.item_lines = self.reading.lines.last_lines();
        Some(item)
    }

    /// The physical line on which the last item begins, counted from 1.
    ///
    /// It is 0 before the first item, and for an item that stands on no line: a reader's own fault, the bound on reads,
    /// refused memory. `None` leaves it as it is. (A count that 64 bits don't hold would need more reads than are
    /// made.)
    ///
    /// ```text
    /// let mut file = Iter::new(alloc, Bytes::new(b"# a comment\nA=1\nB=\"2\n3\"\n"))?;
    /// file.next_item(&env)    // A, with first_line 2 and last_line 2
    /// file.next_item(&env)    // B, with first_line 3 and last_line 4
    /// ```
    pub fn first_line(&self) -> u64
        ensures { result ≡ self.now.item_lines.0 }
    {
        self.item_lines.0
    }

    /// The physical line on which the last item ends, counted from 1, and 0 where `first_line` is 0.
    pub fn last_line(&self) -> u64
        ensures { result ≡ self.now.item_lines.1 }
    {
        self.item_lines.1
    }

    /// Drops a byte order mark that stands next, as both loads do before their first line; `next_item` keeps it.
    ///
    /// Does nothing after the end or a final fault. The errors are those of reading, and `Memory`; each is final.
    ///
    /// On `Ok` what is left is what was left, without one byte order mark at its start. A fault of reading comes only
    /// if the bytes before it are a beginning of a mark, and not the whole. What is remembered, the dialect, the lines
    /// of the last item and the count of lines stay.
    ///
    /// ```text
    /// let mut file = Iter::new(alloc, reader)?;
    /// file.drop_mark()?;    // and now the items are what a load sets
    /// ```
    pub fn drop_mark(&mut self) -> Result<(), A>
        ensures shut { ¬ (IsOpen self.old) → (result ≡ Ok tt) × (self.new ≡ self.old) }
        ensures told { DropsNextMark self.old result self.new }
        ensures ok { OnOk result (IsOpen self.old → IsOpen self.new) }
        ensures err { OnErr result (HasFailed self.new) }
        ensures same { KeepsItems self.old self.new }
        ensures falls { items_measure self.new ≤ items_measure self.old }
        ensures asks { AsksBetween self.old self.new }
    {
        self.reading.lines.drop_mark()
    }

    /// What `next_item` gives under this one environment, as an iterator.
    ///
    /// ```text
    /// for item in file.items(&env) {
    ///     let (key, value) = item?;
    /// }
    /// ```
    pub fn items<'a>(&'a mut self, env: &'a Environment<A>) -> Items<'a, R, A>
        ensures file { (result.file.now ≡ self.old)
            × (result.file.ghost_name ≡ self.entry.ghost_name) }
        ensures env { result.env.now ≡ env.now }
    {
        Items { file: self, env }
    }

    /// As `items`, and each item comes with the physical line on which it begins, counted from 1, as `first_line` says:
    /// it is 0 for an item that is on no line.
    ///
    /// ```text
    /// for (line, item) in file.numbered_items(&env) {
    ///     if let Err(error) = item {
    ///         println!(rt; "{line}: {error}")?;
    ///     }
    /// }
    /// ```
    pub fn numbered_items<'a>(&'a mut self, env: &'a Environment<A>) -> NumberedItems<'a, R, A>
        ensures file { (result.file.now ≡ self.old)
            × (result.file.ghost_name ≡ self.entry.ghost_name) }
        ensures env { result.env.now ≡ env.now }
    {
        NumberedItems { file: self, env }
    }
}

/// The logical lines that an iterator has left, and their dialect. What it remembers is given up.
pub fn into_lines<R: Source + Drop, A: Allocator>(iter: Iter<R, A>) -> (Splitter<R, A>, Dialect)
    ensures lines { result.0.lines ≡ iter.lines }
    ensures dialect { result.1 ≡ iter.dialect }
{
    let Iter {
        reading,
        item_lines: _,
    } = iter;
    let Reading {
        lines,
        remembered: _,
        dialect,
    } = reading;
    (lines, dialect)
}

impl<R: Source, A: Allocator + Clone> Reading<R, A> {
    // The next item of the logical lines that are left.
    fn next(&mut self, env: &Environment<A>) -> Option<Result<Pair<A>, A>>
        ensures next { GivesNext env.now.names self.old result self.new }
        ensures falls { IsSome result →
            lines_measure self.new.lines < lines_measure self.old.lines }
        ensures none { result ≡ None → self.new.lines.stage ≢ Open }
        ensures memory { IfSome result (λ item. IsMemoryErr item → self.new.lines.stage ≡ Failed) }
        ensures key { GivesKey result }
        ensures asks { AsksReads (self.new.lines.stage ≡ Open) self.old.lines.input
            self.new.lines.input }
        ensures dialect { self.new.dialect ≡ self.old.dialect }
    {
        'lines: while let Some(outcome) = self.lines.advance() {
            let item = self.item_of(outcome, env);
            if item.is_some() {
                return item;
            }
        }
        None
    }

    // What the last logical line adds to the items, if anything. Refused memory is the last item.
    fn item_of(
        &mut self,
        outcome: Result<(), A>,
        env: &Environment<A>,
    ) -> Option<Result<Pair<A>, A>>
        ensures adds { AddsLine env.now.names self.old outcome result self.new }
        ensures falls { lines_measure self.new.lines ≤ lines_measure self.old.lines }
        ensures input { self.new.lines.input ≡ self.old.lines.input }
        ensures stage { self.new.lines.stage ≡ Open → self.old.lines.stage ≡ Open }
        ensures memory { IfSome result (λ item. IsMemoryErr item → self.new.lines.stage ≡ Failed) }
        ensures key { GivesKey result }
        ensures dialect { self.new.dialect ≡ self.old.dialect }
    {
        let said = match outcome {
            Ok(()) => {
                let line = Line {
                    text: self.lines.line(),
                    dialect: self.dialect,
                    alloc: self.lines.allocator(),
                };
                parse_line(line, &mut self.remembered, env)
            }
            Err(fault) => Err(fault),
        };
        match &said {
            Ok(_) => {}
            Err(error) => self.fail_if_refused(error),
        }
        said.transpose()
    }

    // Refused memory is final.
    fn fail_if_refused(&mut self, error: &Error<A>)
        ensures { self.new
            ≡ record self.old { lines = lines_after error.now self.old.lines } }
    {
        if matches!(error, Error::Memory(_)) {
            self.lines.fail();
        }
    }
}

impl<R: Source, A: Allocator + Clone> Iter<R, A> {
    /// Loads what is left: drops a byte order mark at the present place, then sets each name that is absent; a name
    /// that is there keeps its value (docs/GRAMMAR.md, "Loading").
    ///
    /// Stops at the first fault and returns it; what stands before it stays set. `first_line` and `last_line` are then
    /// the lines of that fault, or 0 for one that is on no line, and the next call loads what follows it. A value with
    /// a NUL that would be set is such a fault. After `Ok` nothing is left, and the lines are as they were. An iterator
    /// that has ended or failed loads nothing and returns `Ok`.
    ///
    /// Over a reader whose bytes are specified, each absent name that is declared before the stop has its first value
    /// there. A name in a value may also mean what is remembered. A read that fails, the bound on reads and `Memory`
    /// are stops, too; after `Memory` some of the first pairs are set. `Memory` can come at a pair that isn't set,
    /// since its key and value may be copied before its name is found.
    ///
    /// What is remembered stays as it was: the pairs that were loaded are in the environment alone. So go on in that
    /// one after an error; another knows nothing of them.
    ///
    /// ```text
    /// let mut file = Iter::new(alloc, Bytes::new(b"A=1\nB=two words\nC=3\n"))?;
    /// while let Err(error) = file.load_rest(&mut env) {
    ///     println!(rt; "{}: {error}", file.first_line())?;    // 2: Error parsing line: ..
    /// }
    /// ```
    pub fn load_rest(&mut self, env: &mut Environment<A>) -> Result<(), A>
        ensures shut { ¬ (IsOpen self.old) →
            (result ≡ Ok tt) × (self.new ≡ self.old) × (env.new ≡ env.old) }
        ensures told { IsOpen self.old →
            LoadsRest load_result self.old env.old.names result env.new.names }
        // Whatever is returned, names that are there keep their values, only names that are keys change, and the
        // `loaded` flag stays.
        ensures adds { OnlyAdds env.old env.new }
        ensures stops { IsOpen self.old →
            Stops load_result self.old env.old.names result self.new }
        ensures ok { OnOk result (¬ (IsOpen self.new)) }
        ensures memory { IsMemoryErr result → HasFailed self.new }
        ensures same { KeepsRemembered self.old self.new }
        // A loop up to `Ok` ends: each error lowers a bound on the items that can still come.
        ensures falls { OnErr result (items_measure self.new < items_measure self.old) }
        // The reads are those of `next_item`.
        ensures asks { AsksBetween self.old self.new }
    {
        self.load_lines(Mode::Keep { looks_first: true }, env)
    }

    /// As `load_rest`, but each name is set, whether it is there or not.
    ///
    /// Over a reader whose bytes are specified, each name that is declared before the stop has its last value there.
    ///
    /// ```text
    /// let mut file = Iter::new(alloc, Bytes::new(b"A=1\nA=2\n"))?;
    /// file.load_rest_override(&mut env)?;    // A is 2
    /// ```
    pub fn load_rest_override(&mut self, env: &mut Environment<A>) -> Result<(), A>
        ensures shut { ¬ (IsOpen self.old) →
            (result ≡ Ok tt) × (self.new ≡ self.old) × (env.new ≡ env.old) }
        ensures told { IsOpen self.old →
            LoadsRest override_result self.old env.old.names result env.new.names }
        // Whatever is returned, only names that are keys change, and the `loaded` flag stays.
        ensures changes { ChangesOnlyKeys env.old env.new }
        ensures stops { IsOpen self.old →
            Stops override_result self.old env.old.names result self.new }
        ensures ok { OnOk result (¬ (IsOpen self.new)) }
        ensures memory { IsMemoryErr result → HasFailed self.new }
        ensures same { KeepsRemembered self.old self.new }
        ensures falls { OnErr result (items_measure self.new < items_measure self.old) }
        ensures asks { AsksBetween self.old self.new }
    {
        self.load_lines(Mode::Replace, env)
    }

    // Loads what is left in this mode. Refused memory is final, and the lines of a fault are kept.
    fn load_lines(&mut self, mode: Mode, env: &mut Environment<A>) -> Result<(), A>
        ensures shut { ¬ (IsOpen self.old) →
            (result ≡ Ok tt) × (self.new ≡ self.old) × (env.new ≡ env.old) }
        ensures told { IsOpen self.old →
            LoadsRest (run (mode_of mode)) self.old env.old.names result env.new.names }
        ensures keeps { mode_of mode ≡ Keep → KeepsNames env.old.names env.new.names }
        ensures changes { ChangesOnlyKeys env.old env.new }
        ensures stops { IsOpen self.old →
            Stops (run (mode_of mode)) self.old env.old.names result self.new }
        ensures ok { OnOk result (¬ (IsOpen self.new)) }
        ensures memory { IsMemoryErr result → HasFailed self.new }
        ensures same { KeepsRemembered self.old self.new }
        ensures falls { OnErr result (items_measure self.new < items_measure self.old) }
        ensures asks { AsksBetween self.old self.new }
    {
        let loaded = self.load_each_line(mode, env);
        if let Err(error) = &loaded {
            self.reading.fail_if_refused(error);
            self.item_lines = self.reading.lines.last_lines();
        }
        loaded
    }

    // Drops a byte order mark at the present place, then loads line after line. The values that were remembered before
    // stay as they are.
    fn load_each_line(&mut self, mode: Mode, env: &mut Environment<A>) -> Result<(), A>
        ensures shut { ¬ (IsOpen self.old) →
            (result ≡ Ok tt) × (self.new ≡ self.old) × (env.new ≡ env.old) }
        ensures loads { LoadIs (mode_of mode) self.old env.old.names env.new.names result self.new }
        ensures keeps { mode_of mode ≡ Keep → KeepsNames env.old.names env.new.names }
        ensures changes { ChangesOnlyKeys env.old env.new }
        ensures ok { OnOk result (¬ (IsOpen self.new)) }
        ensures same { self.new ≡ record self.old { lines = self.new.lines } }
        ensures falls { OnErr result (items_measure self.new < items_measure self.old) }
        ensures asks { AsksBetween self.old self.new }
    {
        let reading = &mut self.reading;
        let mut mode = mode;
        reading.lines.drop_mark()?;
        'loading: while let Some(outcome) = reading.lines.advance() {
            outcome?;
            if reading.lines.line().is_empty() {
                continue 'loading;
            }
            let line = Line {
                text: reading.lines.line(),
                dialect: reading.dialect,
                alloc: reading.lines.allocator(),
            };
            load_line(line, &reading.remembered, env, &mut mode)?;
        }
        Ok(())
    }
}

impl<R: Source + Drop, A: Allocator + Clone> Iter<R, A> {
    /// As [`load_rest`](Iter::load_rest), and gives up the iterator.
    ///
    /// ```text
    /// Iter::new(alloc, Bytes::new(b"A=1\nA=2\n"))?.load(&mut env)?;    // A is 1, or what it was before
    /// ```
    pub fn load(mut self, env: &mut Environment<A>) -> Result<(), A>
        ensures shut { ¬ (IsOpen self) → (result ≡ Ok tt) × (env.new ≡ env.old) }
        ensures told { IsOpen self →
            LoadsRest load_result self env.old.names result env.new.names }
        ensures adds { OnlyAdds env.old env.new }
    {
        self.load_rest(env)
    }

    /// As [`load_rest_override`](Iter::load_rest_override), and gives up the iterator.
    ///
    /// ```text
    /// Iter::new(alloc, Bytes::new(b"A=1\nA=2\n"))?.load_override(&mut env)?;    // A is 2
    /// ```
    pub fn load_override(mut self, env: &mut Environment<A>) -> Result<(), A>
        ensures shut { ¬ (IsOpen self) → (result ≡ Ok tt) × (env.new ≡ env.old) }
        ensures told { IsOpen self →
            LoadsRest override_result self env.old.names result env.new.names }
        ensures changes { ChangesOnlyKeys env.old env.new }
    {
        self.load_rest_override(env)
    }
}

/// The items of an iterator under one environment; `Iter::items` makes it.
///
/// Each `next` is a `next_item` under that environment, and promises the same.
#[derive(Drop)]
pub struct Items<'a, R: Source, A: Allocator = Global> {
    file: &'a mut Iter<R, A>,
    env: &'a Environment<A>,
}

impl<'a, R: Source, A: Allocator + Clone> Iterator for Items<'a, R, A> {
    type Item = Result<(String<A>, String<A>), A>;

    ghost next_gives = { λ s item t. NextItem s.env.now.names s.file.now item t.file.now
        × AsksBetween s.file.now t.file.now
        × (t.file.ghost_name ≡ s.file.ghost_name) × (t.env.now ≡ s.env.now)
        × GivesKey item × GivesName item × (item ≡ None → ¬ (IsOpen t.file.now))
        × IfSome item (λ given. IsMemoryErr given → HasFailed t.file.now) };

    ghost remaining = { λ s. at_most (items_measure s.file.now) };

    fn next(&mut self) -> Option<Result<(String<A>, String<A>), A>> {
        self.file.next_item(self.env)
    }
}

/// The items of an iterator under one environment, each with its first line; `Iter::numbered_items` makes it.
///
/// Each `next` is a `next_item` under that environment, and promises the same.
#[derive(Drop)]
pub struct NumberedItems<'a, R: Source, A: Allocator = Global> {
    file: &'a mut Iter<R, A>,
    env: &'a Environment<A>,
}

impl<'a, R: Source, A: Allocator + Clone> Iterator for NumberedItems<'a, R, A> {
    type Item = (u64, Result<(String<A>, String<A>), A>);

    ghost next_gives = { λ s item t. NextItem s.env.now.names s.file.now (unnumbered item) t.file.now
        × IsNumbered item t.file.now × AsksBetween s.file.now t.file.now
        × (t.file.ghost_name ≡ s.file.ghost_name) × (t.env.now ≡ s.env.now)
        × GivesKey (unnumbered item) × GivesName (unnumbered item)
        × (item ≡ None → ¬ (IsOpen t.file.now))
        × IfSome (unnumbered item) (λ given. IsMemoryErr given → HasFailed t.file.now) };

    ghost remaining = { λ s. at_most (items_measure s.file.now) };

    fn next(&mut self) -> Option<(u64, Result<(String<A>, String<A>), A>)> {
        let item = self.file.next_item(self.env)?;
        Some((self.file.first_line(), item))
    }
}

/// Loads a reader by `Iter::load`: a name that is there keeps its value.
pub fn from_read<R: Source + Drop, A: Allocator + Clone>(
    alloc: A,
    reader: R,
    env: &mut Environment<A>,
) -> Result<(), A>
    ensures told { LoadsRest load_result (fresh (R.told reader) Dialect.V15)
        env.old.names result env.new.names }
    // The result is also that of setting one pair after another, into an environment that changes.
    ensures in_turn { LoadsRest (run Keep) (fresh (R.told reader) Dialect.V15)
        env.old.names result env.new.names }
    ensures adds { OnlyAdds env.old env.new }
{
    Iter::new(alloc, reader)?.load(env)
}

/// Loads a reader by `Iter::load_override`: each name that it declares is set.
pub fn from_read_override<R: Source + Drop, A: Allocator + Clone>(
    alloc: A,
    reader: R,
    env: &mut Environment<A>,
) -> Result<(), A>
    ensures told { LoadsRest override_result (fresh (R.told reader) Dialect.V15)
        env.old.names result env.new.names }
    // The result is also that of setting one pair after another, into an environment that changes.
    ensures in_turn { LoadsRest (run Replace)
        (fresh (R.told reader) Dialect.V15) env.old.names result env.new.names }
    ensures changes { ChangesOnlyKeys env.old env.new }
{
    Iter::new(alloc, reader)?.load_override(env)
}

/// A fresh iterator over a reader; nothing is set.
///
/// The error is `Memory`.
pub fn from_read_iter<R: Source + Drop, A: Allocator + Clone>(
    alloc: A,
    reader: R,
) -> Result<Iter<R, A>, A>
    ensures ok { IfOk result (λ s. s ≡ fresh (R.told reader) Dialect.V15) }
    ensures memory { IfErr result IsMemory }
{
    Iter::new(alloc, reader)
}
