//! What one logical line of a load sets.
ghost use Rattle.std.specs.Prelude.{◌≡◌, true, false, IsTrue, string_bytes};
ghost use Rattle.std.specs.Str.{chars};
ghost use Rattle.dotenvy_items.specs.Remembered.{remembered_of};
ghost use Rattle.dotenvy_items.specs.Meaning.{values_of};
ghost use Rattle.dotenvy_base.specs.Environment.{KeepsNames, name_ok};
ghost use Rattle.dotenvy_format.specs.Run.{Keep, sets};
ghost use Rattle.dotenvy_items.specs.LoadsRest.{ChangesOnlyKeys};
ghost use Rattle.dotenvy_items.specs.inside.LoadStep.{mode_of, LoadsLine, SetsIn};

use crate::meaning::Names;
use crate::parse::{Line, declaration_of, pair_of};
use crate::remembered::Remembered;
use dotenvy_base::environment::{Environment, set_absent};
use dotenvy_base::errors::Result;
use std::alloc::Allocator;

/// What a load does with a name that is there.
#[derive(Clone, Copy)]
pub(crate) enum Mode {
    /// It keeps its value. `looks_first` guesses that the next name is there. It is then looked for before its value is
    /// expanded; otherwise one search finds its place, or finds it there.
    Keep { looks_first: bool },
    /// Its value is replaced.
    Replace,
}

impl Mode {
    // Whether a name is seen to keep its value, before that is expanded.
    //
    // The contract says only that a name for which it returns true would keep its value. So no guess changes what a
    // load leaves.
    fn passes_by<A: Allocator>(&self, env: &Environment<A>, key: &str) -> bool
        ensures { result ≡ true →
            sets (mode_of self.now) (values_of env.now.names) (chars key.now) ≡ false }
    {
        match self {
            Mode::Keep { looks_first } => *looks_first && env.contains(key),
            Mode::Replace => false,
        }
    }

    // Sets the value of a name, if the mode lets it. A name that is there lets the mode guess that the next one is,
    // too, and an absent one that the next one is absent.
    fn set<A: Allocator + Clone>(
        &mut self,
        env: &mut Environment<A>,
        key: String<A>,
        value: String<A>,
    ) -> Result<(), A>
        requires { IsTrue (name_ok (string_bytes key)) }
        ensures sets { SetsIn (mode_of self.old) env.old (key, value) result env.new }
        ensures mode { mode_of self.new ≡ mode_of self.old }
    {
        match self {
            Mode::Keep { looks_first } => {
                *looks_first = !set_absent(env, key, value)?;
                Ok(())
            }
            Mode::Replace => env.set(key, value),
        }
    }
}

/// Sets what one logical line declares, if the mode lets it, or answers the line's fault.
///
/// Nothing is remembered: a key that a load has met is in the environment, and that is asked first when a name is
/// looked up. So a name that is seen to keep its value takes no memory, and its value is only read for a fault.
///
/// It returns and leaves what the load of the line's own entries returns and leaves; or `Memory`, and nothing changed.
pub(crate) fn load_line<A: Allocator + Clone>(
    line: Line<'_, A>,
    remembered: &Remembered<A>,
    env: &mut Environment<A>,
    mode: &mut Mode,
) -> Result<(), A>
    ensures loads { LoadsLine (mode_of mode.old) line.entry.dialect
        (remembered_of remembered.now.entries) (chars line.entry.text.now) env.old.names result
        env.new.names }
    ensures keeps { mode_of mode.old ≡ Keep →
        KeepsNames env.old.names env.new.names }
    ensures changes { ChangesOnlyKeys env.old env.new }
    ensures mode { mode_of mode.new ≡ mode_of mode.old }
{
    let names = Names {
        env: &*env,
        remembered,
    };
    let declaration = match declaration_of(&line, &names)? {
        Some(declaration) => declaration,
        None => return Ok(()),
    };
    if mode.passes_by(env, declaration.key) {
        return Ok(());
    }
    let (key, value) = pair_of(line.alloc.clone()?, declaration, &names, line.dialect)?;
    mode.set(env, key, value)
}
