//! Rows of the kinds `refused_items`, `refused_load`, `refused_list` and `requests`: each request for memory of a call
//! is refused in turn, up to a run that meets no refusal.

use crate::answer::{push_answer, push_compared, push_front};
use crate::file::dialect;
use crate::row::refuse_count;
use anyhow::{Result, bail};
use dotenvy::{Bytes, Dialect, Environment, Error, Iter, Plain};
use std::alloc::{Allocator, Global};
use test_comparison::Comparison;
use test_support::answers::{answer, next_item, pairs, push_items, written};
use test_support::environment::environment_of;
use test_support::notation::{bytes, texts};
use test_support::{Rationed, notation};

// More requests than any call of a row makes.
pub const MOST_REQUESTS: u64 = 500;

// A call that reads a file.
#[derive(Clone, Copy)]
enum Call {
    Items,
    Load,
    LoadOverride,
    FromRead,
    FromReadOverride,
    List,
}

fn call_named(name: &str) -> Result<Call> {
    match name {
        "items" => Ok(Call::Items),
        "load" => Ok(Call::Load),
        "load_override" => Ok(Call::LoadOverride),
        "from_read" => Ok(Call::FromRead),
        "from_read_override" => Ok(Call::FromReadOverride),
        "list" => Ok(Call::List),
        _ => bail!("no call is called {name}"),
    }
}

// A file, and the names and values that are there.
#[derive(Drop)]
struct File {
    dialect: Dialect,
    names: Vec<(String, String)>,
    bytes: Vec<u8>,
}

impl File {
    fn parse(alloc: Global, dialect_field: &str, names: &str, file: &str) -> Result<File> {
        Ok(File {
            dialect: dialect(dialect_field)?,
            names: notation::pairs(alloc, names)?,
            bytes: bytes(alloc, file)?,
        })
    }

    fn open<A: Allocator + Clone>(&self, alloc: A) -> dotenvy::Result<Iter<Bytes<'_>, A>, A> {
        Iter::with_dialect(alloc, Bytes::new(&self.bytes), self.dialect)
    }

    // Adds the items up to a refusal. After it there are none, and a load sets nothing.
    fn push_items<A: Allocator + Clone>(
        &self,
        alloc: A,
        items: &mut Vec<String>,
    ) -> dotenvy::Result<(), A> {
        let environment = environment_of(alloc.clone()?, &self.names)?;
        let mut entries = self.open(alloc)?;
        let answer = push_items(items, &mut entries, &environment);
        push_more(items, entries, environment)?;
        answer
    }

    // Loads into the environment, in the first dialect by the calls that are given none.
    fn load<A: Allocator + Clone>(
        &self,
        environment: &mut Environment<A>,
        alloc: A,
        call: Call,
    ) -> dotenvy::Result<(), A> {
        let reader = Bytes::new(&self.bytes);
        match call {
            Call::LoadOverride => self.open(alloc)?.load_override(environment),
            Call::FromRead => dotenvy::from_read(alloc, reader, environment),
            Call::FromReadOverride => dotenvy::from_read_override(alloc, reader, environment),
            _ => self.open(alloc)?.load(environment),
        }
    }

    fn list<A: Allocator + Clone>(
        &self,
        alloc: A,
        writer: &mut Plain<Vec<u8>>,
    ) -> dotenvy::Result<(), A> {
        dotenvy::list_with(alloc, Bytes::new(&self.bytes), writer, self.dialect)
    }

    // Makes the call, whatever it answers but refused memory.
    fn make<A: Allocator + Clone>(
        &self,
        call: Call,
        alloc: A,
        room: Global,
    ) -> dotenvy::Result<(), A> {
        let answer = match call {
            Call::Items => self.push_items(alloc, &mut Vec::new(room)),
            Call::List => self.list(alloc, &mut Plain::new(Vec::new(room))),
            _ => {
                let mut environment = environment_of(alloc.clone()?, &self.names)?;
                self.load(&mut environment, alloc, call)
            }
        };
        match answer {
            Err(Error::Memory(refused)) => Err(Error::Memory(refused)),
            _ => Ok(()),
        }
    }
}

// Adds what an iterator that has ended gives, which is to be nothing.
fn push_more<A: Allocator + Clone>(
    items: &mut Vec<String>,
    mut entries: Iter<Bytes<'_>, A>,
    mut environment: Environment<A>,
) -> dotenvy::Result<(), A> {
    let room = *items.allocator();
    if let Some(item) = next_item(room, &mut entries, &environment)? {
        items.push(item)?;
    }
    let before = environment.len();
    entries.load(&mut environment)?;
    if environment.len() != before {
        items.push(String::from_str(room, "a name after the end")?)?;
    }
    Ok(())
}

// Whether a request was refused: then the answer must be `Memory`, and else it must not.
pub fn is_refused<T, A: Allocator>(
    ration: &Rationed<Global>,
    answer: &dotenvy::Result<T, A>,
) -> Result<bool> {
    let is_memory = matches!(answer, Err(Error::Memory(_)));
    if is_memory != ration.has_refused() {
        bail!("refused memory and the answer do not agree");
    }
    Ok(is_memory)
}

/// What was answered, and `None` where memory was refused. Other faults are errors.
pub fn unless_refused<T: Drop, A: Allocator>(
    ration: &Rationed<Global>,
    answer: dotenvy::Result<T, A>,
) -> Result<Option<T>> {
    if is_refused(ration, &answer)? {
        return Ok(None);
    }
    Ok(Some(answer?))
}

// The state that is the one left, or the last one.
fn same_state(alloc: Global, states: &[&str], left: &Vec<String>) -> Result<Vec<String>> {
    let mut wanted = Vec::new(alloc);
    for state in states {
        wanted = texts(alloc, state)?;
        if wanted == *left {
            return Ok(wanted);
        }
    }
    Ok(wanted)
}

// A call on a file, and what it answers and leaves.
#[derive(Clone, Copy)]
struct Refused<'a> {
    call: Call,
    file: &'a File,
    wanted: &'a str,
    states: &'a [&'a str],
}

impl Refused<'_> {
    // Refuses each request of the call in turn.
    fn run_in_turn(&self, answers: &mut Vec<Comparison>) -> Result<()> {
        for number in 1..MOST_REQUESTS {
            if self.run(answers, number)? {
                return Ok(());
            }
        }
        bail!("each run met a refusal")
    }

    // Makes the call with the request of this number refused, and tells whether none was.
    fn run(&self, answers: &mut Vec<Comparison>, number: u64) -> Result<bool> {
        let ration = Rationed::refusing(*answers.allocator(), number);
        match self.call {
            Call::Items => self.compare_items(answers, &ration),
            Call::List => self.compare_list(answers, &ration),
            _ => match unless_refused(&ration, environment_of(&ration, &self.file.names))? {
                Some(environment) => self.compare_load(answers, &ration, environment),
                None => Ok(false),
            },
        }
    }

    fn compare_items(
        &self,
        answers: &mut Vec<Comparison>,
        ration: &Rationed<Global>,
    ) -> Result<bool> {
        let mut items = Vec::new(*answers.allocator());
        let answered = self.file.push_items(ration, &mut items);
        let is_refused = is_refused(ration, &answered)?;
        if is_refused {
            push_front(answers, "items", self.wanted, items)?;
        } else {
            push_answer(answers, "items", "in all", self.wanted, items)?;
        }
        Ok(!is_refused)
    }

    fn compare_list(
        &self,
        answers: &mut Vec<Comparison>,
        ration: &Rationed<Global>,
    ) -> Result<bool> {
        let alloc = *answers.allocator();
        let mut writer = Plain::new(Vec::new(alloc));
        let answered = self.file.list(ration, &mut writer);
        let got = written(alloc, &answered, writer.into_inner())?;
        let is_refused = is_refused(ration, &answered)?;
        let (when, wanted) = if is_refused {
            ("at a refusal", "memory")
        } else {
            ("in all", self.wanted)
        };
        push_answer(answers, "listing", when, wanted, got)?;
        Ok(!is_refused)
    }

    fn compare_load<'r>(
        &self,
        answers: &mut Vec<Comparison>,
        ration: &'r Rationed<Global>,
        mut environment: Environment<&'r Rationed<Global>>,
    ) -> Result<bool> {
        let alloc = *answers.allocator();
        let answered = self.file.load(&mut environment, ration, self.call);
        let left = pairs(alloc, &environment)?;
        let is_refused = is_refused(ration, &answered)?;
        if is_refused {
            self.push_refused(answers, left)?;
        } else {
            self.push_done(answers, answer(alloc, &answered)?, left)?;
        }
        Ok(!is_refused)
    }

    fn push_refused(&self, answers: &mut Vec<Comparison>, left: Vec<String>) -> Result<()> {
        let state = same_state(*answers.allocator(), self.states, &left)?;
        push_compared(answers, "load", "left at a refusal", state, left)?;
        Ok(())
    }

    fn push_done(
        &self,
        answers: &mut Vec<Comparison>,
        answered: String,
        left: Vec<String>,
    ) -> Result<()> {
        let got = vec![in *answers.allocator(); answered]?;
        push_answer(answers, "load", "answered", self.wanted, got)?;
        let state = self.states.last().unwrap_or(&"");
        push_answer(answers, "load", "left", state, left)
    }
}

/// Plays a row of kind `refused_items`.
pub fn play_items(answers: &mut Vec<Comparison>, fields: &[&str]) -> Result<()> {
    let [dialect, names, file, wanted] = fields else {
        return refuse_count(fields, 4);
    };
    let file = File::parse(*answers.allocator(), dialect, names, file)?;
    let refused = Refused {
        call: Call::Items,
        file: &file,
        wanted,
        states: &[],
    };
    refused.run_in_turn(answers)
}

/// Plays a row of kind `refused_load`.
pub fn play_load(answers: &mut Vec<Comparison>, fields: &[&str]) -> Result<()> {
    let [name, dialect, names, file, wanted, states @ ..] = fields else {
        bail!("{} fields in place of 6 and more", fields.len());
    };
    let file = File::parse(*answers.allocator(), dialect, names, file)?;
    let refused = Refused {
        call: call_named(name)?,
        file: &file,
        wanted,
        states,
    };
    refused.run_in_turn(answers)
}

/// Plays a row of kind `refused_list`.
pub fn play_list(answers: &mut Vec<Comparison>, fields: &[&str]) -> Result<()> {
    let [dialect, file, wanted] = fields else {
        return refuse_count(fields, 3);
    };
    let file = File::parse(*answers.allocator(), dialect, "", file)?;
    let refused = Refused {
        call: Call::List,
        file: &file,
        wanted,
        states: &[],
    };
    refused.run_in_turn(answers)
}

// How many requests a call makes.
fn requests_of(alloc: Global, call: Call, file: &File) -> Result<u64> {
    for number in 1..MOST_REQUESTS {
        let ration = Rationed::refusing(alloc, number);
        let answer = file.make(call, &ration, alloc);
        if !is_refused(&ration, &answer)? {
            return Ok(number - 1);
        }
    }
    bail!("each run met a refusal")
}

/// Plays a row of kind `requests`.
pub fn play_requests(answers: &mut Vec<Comparison>, fields: &[&str]) -> Result<()> {
    let alloc = *answers.allocator();
    let [name, dialect, names, before, lines, wanted] = fields else {
        return refuse_count(fields, 6);
    };
    let call = call_named(name)?;
    let file = File::parse(alloc, dialect, names, before)?;
    let requests = requests_of_lines(alloc, call, file, lines)?;
    let got = vec![in alloc; requests.to_string(alloc)?]?;
    push_answer(answers, "requests", "of the lines", wanted, got)
}

// How many requests more a call makes where these lines stand behind the file.
fn requests_of_lines(alloc: Global, call: Call, mut file: File, lines: &str) -> Result<u64> {
    let alone = if file.bytes.is_empty() {
        0
    } else {
        requests_of(alloc, call, &file)?
    };
    file.bytes.extend_from_slice(&bytes(alloc, lines)?)?;
    Ok(requests_of(alloc, call, &file)?.saturating_sub(alone))
}
