//! The names that files declare, with the values that loads of the files leave.

ghost use Rattle.std.specs.Prelude.{◌≡◌, IfErr, IfOk, OnOk, map};
ghost use Rattle.dotenvy_base.specs.Errors.{IsMemory};
ghost use Rattle.dotenvy_items.specs.Meaning.{values_of};
ghost use Rattle.dotenvy_items.specs.Iter.{fresh, remembering};
ghost use Rattle.dotenvy_exporter.specs.Declarations.{LoadsDeclared, LoadsFile, LoadsThrough, StopsAmong, StopsFile, bytes_told, kept_names};

use dotenvy::{Bytes, Dialect, Environment, Error, Iter};
use env_layers::Mode;
use std::alloc::{AllocError, Allocator, Global};

/// How files are loaded, and over which environment.
///
/// ```
/// // as `dotenvy_run -f` loads them: names of the environment win, and then the first file that has a name
/// let how = Loading { env: &environment, mode: Mode::Keep, dialect: Dialect::V15 };
/// ```
#[derive(Drop)]
pub struct Loading<'e, A: Allocator = Global> {
    /// The environment before the first file.
    pub env: &'e Environment<A>,
    /// What a file does with a name that is there already.
    pub mode: Mode,
    /// The dialect of the files.
    pub dialect: Dialect,
}

/// Where a load of files stops, and why.
///
/// ```
/// if let Err(stopped) = declared(alloc, &files, &how) {
///     // where the second file has a fault in its third line: stopped.file is 1, and stopped.line is 3
/// }
/// ```
#[derive(Drop)]
pub struct Stopped<A: Allocator = Global> {
    /// The file, counted from 0.
    pub file: usize,
    /// The physical line on which the entry with the error begins, counted from 1, or 0 for an error on no line.
    pub line: u64,
    /// Why.
    pub error: Error<A>,
}

impl<A: Allocator> From<Error<A>> for Stopped<A> {
    ghost use Rattle.dotenvy_exporter.specs.Declarations.{StopsBefore};

    ghost from_gives = { λ error stopped. StopsBefore error stopped };

    fn from(error: Error<A>) -> Stopped<A> {
        Stopped {
            file: 0,
            line: 0,
            error,
        }
    }
}

impl<A: Allocator> From<AllocError> for Stopped<A> {
    ghost use Rattle.dotenvy_exporter.specs.Declarations.{IsMemoryStop};

    ghost from_gives = { λ _ stopped. IsMemoryStop stopped };

    fn from(refused: AllocError) -> Stopped<A> {
        Stopped::from(Error::Memory(refused))
    }
}

/// Loads the contents of files one after another, and returns the names that they declare, with the values that these
/// have then (docs/GRAMMAR.md, "Loading"). Names that no file declares are left out.
///
/// The error says which file stops a load, and on which line the entry begins that has a fault, or a value with a NUL.
/// The line is 0 if an allocation fails, or at the bound on reads (2^32). A value with a NUL is an error in the first
/// declaration of a name, even where the environment's value counts.
///
/// Where a name that the files declare keeps its value of the environment, they are loaded twice: over no names, to
/// learn what they declare, and over those of the environment. This takes twice the time.
///
/// On `Ok` loading each file returns `Ok`, over what the files before it left, without an opening byte order mark: so
/// no file has a fault. The load that stops is one over no names or, under `Mode::Keep`, over the names of the
/// environment that the files declare. No clause speaks of the `loaded` flag of the result, or of a NUL where the
/// environment's value counts.
///
/// ```
/// // of PORT=1 in the environment, and a file of two lines, `PORT=2` and `URL=http://$HOST:$PORT`:
/// // PORT, which is 1, and URL, which is http://:1
/// let names = declared(alloc, &files, &loading)?;
/// ```
pub fn declared<A: Allocator + Clone>(
    alloc: A,
    files: &[Vec<u8, A>],
    how: &Loading<'_, A>,
) -> Result<Environment<A>, Stopped<A>>
    ensures { LoadsDeclared how.now.mode how.now.dialect how.now.env.now.names
        (map (λ file. file.items) files.now) result }
{
    let mut names = Environment::new(alloc.clone()?);
    load_all(&alloc, files, how, &mut names)?;
    let mut kept = kept_of(&alloc, how, &names)?;
    if kept.is_empty() {
        return Ok(names);
    }
    load_all(&alloc, files, how, &mut kept)?;
    Ok(kept)
}

// Loads files one after another over these names, where a name that is none of them means its value in the
// environment.
fn load_all<A: Allocator + Clone>(
    alloc: &A,
    files: &[Vec<u8, A>],
    how: &Loading<'_, A>,
    names: &mut Environment<A>,
) -> Result<(), Stopped<A>>
    ensures loads { OnOk result (LoadsThrough how.now.mode how.now.dialect
        (values_of how.now.env.now.names) (map (λ file. file.items) files.now)
        (values_of names.old.names) (values_of names.new.names)) }
    ensures stopped { IfErr result (StopsAmong how.now.mode how.now.dialect
        (values_of how.now.env.now.names) (values_of names.old.names)
        (map (λ file. file.items) files.now)) }
{
    let mut index = 0;
    'files: while index < files.len() {
        if let Err(stopped) = load_file(alloc, files[index].as_slice(), how, names) {
            return Err(Stopped {
                file: index,
                line: stopped.line,
                error: stopped.error,
            });
        }
        index += 1;
    }
    Ok(())
}

// Loads a file over these names.
fn load_file<A: Allocator + Clone>(
    alloc: &A,
    bytes: &[u8],
    how: &Loading<'_, A>,
    names: &mut Environment<A>,
) -> Result<(), Stopped<A>>
    ensures loads { OnOk result (LoadsFile how.now.mode how.now.dialect (values_of how.now.env.now.names)
        (values_of names.old.names) bytes.now (values_of names.new.names)) }
    ensures stopped { IfErr result (λ stopped. StopsFile how.now.mode how.now.dialect
        (values_of how.now.env.now.names) (values_of names.old.names) bytes.now
        stopped.line stopped.error) }
{
    let mut file = opened(alloc, bytes, how)?;
    let loaded = match how.mode {
        Mode::Keep => file.load_rest(names),
        Mode::Override => file.load_rest_override(names),
    };
    match loaded {
        Ok(()) => Ok(()),
        Err(error) => Err(Stopped {
            file: 0,
            line: file.first_line(),
            error,
        }),
    }
}

// An iterator over bytes, for which a name that is unknown means its value in the environment.
fn opened<'b, A: Allocator + Clone>(
    alloc: &A,
    bytes: &'b [u8],
    how: &Loading<'_, A>,
) -> dotenvy::Result<Iter<Bytes<'b>, A>, A>
    ensures file { IfOk result (λ file. file
        ≡ remembering how.now.env.now.names (fresh (bytes_told bytes.now) how.now.dialect)) }
    ensures memory { IfErr result IsMemory }
{
    let mut file = Iter::with_dialect(alloc.clone()?, Bytes::new(bytes), how.dialect)?;
    file.remember(how.env)?;
    Ok(file)
}

// The names of the environment that are among these, where such names keep their values; else none.
fn kept_of<A: Allocator + Clone>(
    alloc: &A,
    how: &Loading<'_, A>,
    names: &Environment<A>,
) -> dotenvy::Result<Environment<A>, A>
    ensures kept { IfOk result (λ kept. kept.names
        ≡ kept_names how.now.mode how.now.env.now.names names.now.names) }
    ensures memory { IfErr result IsMemory }
{
    let mut kept = Environment::new(alloc.clone()?);
    if matches!(how.mode, Mode::Override) {
        return Ok(kept);
    }
    'names: for (name, value) in how.env.iter() {
        if names.contains(name) {
            let name = String::from_str(alloc.clone()?, name.as_str())?;
            let value = String::from_str(alloc.clone()?, value.as_str())?;
            kept.set(name, value)?;
        }
    }
    Ok(kept)
}
