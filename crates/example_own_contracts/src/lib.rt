//! An example: two functions that use the library and have contracts of their own. `dotenvy` has every word of these.
#![tactic(auto)]

ghost use Rattle.std.specs.Prelude.{◌≡◌, codes, IfOk, true};
ghost use Rattle.std.specs.FinMap as fin;
ghost use Rattle.std.specs.Path.{path_bytes, path_buf_bytes};
ghost use Rattle.dotenvy.specs.Find.{Finds, IsPathOf};
ghost use Rattle.dotenvy.specs.Iter.{IsOpen};
ghost use Rattle.dotenvy.specs.Loads.{load_result};
ghost use Rattle.dotenvy.specs.LoadsRest.{LoadsRest};

use dotenvy::search::{Look, find};
use dotenvy::{Environment, Iter, Result, Source};
use std::alloc::Allocator;
use std::path::{Path, PathBuf};

/// Loads the rest of a file of defaults into the settings. A `HOST` that the settings have keeps its value.
pub fn load_defaults<R: Source + Drop, A: Allocator + Clone>(
    defaults: Iter<R, A>,
    settings: &mut Environment<A>,
) -> Result<(), A>
    ensures loads { IsOpen defaults →
        LoadsRest load_result defaults settings.old.names result settings.new.names }
    ensures host { fin.contains_key settings.old.names (codes "HOST") ≡ true →
        fin.get settings.new.names (codes "HOST") ≡ fin.get settings.old.names (codes "HOST") }
{
    defaults.load(settings)
}

/// Finds `settings.env` in this directory or in the nearest directory above that has it.
pub fn find_settings<A: Allocator + Clone, F: FnMut(Path<'_>) -> Look>(
    alloc: A,
    directory: Path<'_>,
    look: &mut F,
) -> Result<PathBuf<A>, A>
    requires { F.IsAlwaysCallable look.old }
    ensures finds { Finds F.step look.old look.new
        (path_bytes directory.entry) (codes "settings.env") result }
    ensures path { IfOk result (λ found. IsPathOf (codes "settings.env") (path_buf_bytes found)) }
{
    find(alloc, directory, Path::new("settings.env"), look)
}

#[cfg(test)]
mod tests {
    use super::*;
    use dotenvy::Bytes;
    use std::test::Fail;

    #[test]
    fn defaults_keep_the_host(rt: HostRuntime) -> std::result::Result<(), Fail> {
        let alloc = rt.alloc();
        let mut settings = Environment::new(alloc);
        settings.set(
            String::from_str(alloc, "HOST")?,
            String::from_str(alloc, "db.local")?,
        )?;
        let defaults = Iter::new(alloc, Bytes::new(b"HOST=localhost\nPORT=8080\n"))?;
        load_defaults(defaults, &mut settings)?;
        assert_eq!(rt; settings.get("HOST"), Some("db.local"));
        assert_eq!(rt; settings.get("PORT"), Some("8080"));
        Ok(())
    }
}
