//! What is told of an edit, as far as the lines were read.

ghost use Rattle.std.specs.Prelude.{◌≡◌, ◌∷◌, ◌++◌, [], IfOk, OnOk, chars};
ghost use Rattle.dotenvy_editor.specs.Told.{AreNames};
ghost use Rattle.dotenvy_editor.specs.Warnings.{dollar_of, lost_lines};
ghost use Rattle.dotenvy_editor.specs.inside.Noted.{first_noted};
ghost use Rattle.dotenvy_editor.specs.inside.Telling.{IsUntold, TellsMore, is_mention, is_stop, mention_if, names_if, removed_at_change, stop_if, stop_list, stops_at_change};

use crate::change::Change;
use crate::forms::has_name;
use crate::lines::Slice;
use crate::mentions::Names;
use crate::values::Value;
use crate::warning::Warning;
use dotenvy::Dialect;
use std::alloc::{AllocError, Allocator};

/// The warnings so far, and what the next ones depend on.
#[derive(Drop)]
pub(crate) struct Telling<A: Allocator> {
    alloc: A,
    warnings: Vec<Warning<A>, A>,
    // The key, and the names so far whose values mention it, themselves or through others.
    changed: Names<A>,
    // The first line at which a load stops.
    stop: Option<u64>,
}

impl<A: Allocator + Clone> Telling<A> {
    /// Nothing is told yet of an edit of this key.
    pub(crate) fn new(alloc: A, key: &str) -> Result<Telling<A>, AllocError>
        ensures untold { IfOk result (λ telling. IsUntold (chars key.now) telling) }
        ensures nothing { IfOk result (λ telling. telling.warnings.items ≡ []) }
    {
        let mut changed = Names::new(alloc.clone()?);
        changed.add(alloc.clone()?, key)?;
        Ok(Telling {
            warnings: Vec::new(alloc.clone()?),
            changed,
            stop: None,
            alloc,
        })
    }

    /// The key, and the names so far whose values mention it.
    pub(crate) fn changed(&self) -> &Names<A>
        ensures { result.now ≡ self.now.changed }
    {
        &self.changed
    }

    // Tells this.
    fn tell(&mut self, warning: Warning<A>) -> Result<(), AllocError>
        ensures same { self.new ≡ record self.old { warnings = self.new.warnings } }
        ensures appends { OnOk result (self.new.warnings.items ≡ self.old.warnings.items
            ++ warning ∷ []) }
    {
        self.warnings.push(warning)?;
        Ok(())
    }

    /// Tells that the value to be set has a dollar and a name, if it has.
    pub(crate) fn tell_dollar(&mut self, value: &str, dialect: Dialect) -> Result<(), AllocError>
        ensures same { self.new ≡ record self.old { warnings = self.new.warnings } }
        ensures told { OnOk result (TellsMore [] [] [] (dollar_of dialect (chars value.now))
            self.old.warnings.items self.new.warnings.items) }
    {
        if has_name(value, dialect) {
            return self.tell(Warning::Dollar);
        }
        Ok(())
    }

    /// Tells at which line a load stops before it comes to the key, if it does.
    pub(crate) fn tell_stop(&mut self) -> Result<(), AllocError>
        ensures same { self.new ≡ record self.old { warnings = self.new.warnings } }
        ensures told { OnOk result (TellsMore [] (stop_list self.old.stop) [] []
            self.old.warnings.items self.new.warnings.items) }
    {
        match self.stop {
            Some(line) => self.tell(Warning::StopsBefore { line }),
            None => Ok(()),
        }
    }

    /// A load stops at this line.
    pub(crate) fn stops_at(&mut self, line: u64)
        ensures { self.new ≡ record self.old { stop = first_noted self.old.stop line } }
    {
        self.stop = self.stop.or(Some(line));
    }

    // A load stops at this line, if a value there has a NUL.
    fn stops_if(&mut self, has_nul: bool, line: u64)
        ensures { self.new ≡ record self.old { stop = stop_if has_nul self.old.stop line } }
    {
        if has_nul {
            self.stops_at(line);
        }
    }

    // Tells that the value of a name mentions the key, if it does.
    fn tell_mention(&mut self, mentions: bool, name: &str, line: u64) -> Result<(), AllocError>
        ensures same { self.new
            ≡ record self.old { warnings = self.new.warnings; changed = self.new.changed } }
        ensures changed { OnOk result ((names : _) → AreNames self.old.changed names →
            AreNames self.new.changed (names_if mentions (chars name.now) names)) }
        ensures told { OnOk result (TellsMore (mention_if mentions (chars name.now) line) [] [] []
            self.old.warnings.items self.new.warnings.items) }
    {
        if !mentions {
            return Ok(());
        }
        self.changed.add(self.alloc.clone()?, name)?;
        let name = String::from_str(self.alloc.clone()?, name)?;
        self.tell(Warning::Mentions { name, line })
    }

    /// Notes what another name than the key is given.
    pub(crate) fn note_other(
        &mut self,
        name: &str,
        line: u64,
        value: Option<Value>,
    ) -> Result<(), AllocError>
        ensures stop { OnOk result (self.new.stop ≡ stop_if (is_stop value) self.old.stop line) }
        ensures changed { OnOk result ((names : _) → AreNames self.old.changed names →
            AreNames self.new.changed (names_if (is_mention value) (chars name.now) names)) }
        ensures told { OnOk result (TellsMore (mention_if (is_mention value) (chars name.now) line) [] [] []
            self.old.warnings.items self.new.warnings.items) }
    {
        match value {
            None => {
                self.stops_at(line);
                Ok(())
            }
            Some(value) => {
                self.stops_if(value.has_nul, line);
                self.tell_mention(value.mentions, name, line)
            }
        }
    }

    // Tells that these lines go.
    fn tell_removed(&mut self, first: u64, last: u64) -> Result<(), AllocError>
        ensures same { self.new ≡ record self.old { warnings = self.new.warnings } }
        ensures told { OnOk result (TellsMore [] [] ((first, last) ∷ []) []
            self.old.warnings.items self.new.warnings.items) }
    {
        self.tell(Warning::Removed { first, last })
    }

    // Tells the lines of a value with a fault that go, after the first.
    fn tell_lost(&mut self, slice: Slice<'_>, is_fault: bool) -> Result<(), AllocError>
        ensures same { self.new ≡ record self.old { warnings = self.new.warnings } }
        ensures told { OnOk result (TellsMore [] [] (lost_lines is_fault slice.entry.first slice.entry.last) []
            self.old.warnings.items self.new.warnings.items) }
    {
        if is_fault && slice.first < slice.last {
            return self.tell_removed(slice.first + 1, slice.last);
        }
        Ok(())
    }

    /// Tells what is to know of an assignment of the key, the first or a later one, whose value may be a fault.
    pub(crate) fn tell_changed(
        &mut self,
        change: Change<'_>,
        is_first: bool,
        slice: Slice<'_>,
        is_fault: bool,
    ) -> Result<(), AllocError>
        ensures same { self.new ≡ record self.old { warnings = self.new.warnings } }
        ensures told { OnOk result (TellsMore []
            (stops_at_change change.entry is_first self.old.stop)
            (removed_at_change change.entry is_first is_fault slice.entry.first slice.entry.last) []
            self.old.warnings.items self.new.warnings.items) }
    {
        match change {
            Change::Set(_) if is_first => {
                self.tell_stop()?;
                self.tell_lost(slice, is_fault)
            }
            Change::Set(_) => self.tell_removed(slice.first, slice.last),
            Change::Unset(_, _) if is_first => self.tell_lost(slice, is_fault),
            Change::Unset(_, _) => self.tell_removed(slice.first, slice.last),
            Change::Rename(_, _, _) if is_first => self.tell_stop(),
            Change::Rename(_, _, _) => Ok(()),
        }
    }

    /// The warnings.
    pub(crate) fn finish(self) -> Vec<Warning<A>, A>
        ensures { result ≡ self.warnings }
    {
        let Telling {
            alloc: _,
            warnings,
            changed: _,
            stop: _,
        } = self;
        warnings
    }
}
