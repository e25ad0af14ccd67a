//! Rows of kind `files`: steps and calls in a folder, with the system around it and an environment. Rows of kind
//! `process`: the environment that a process hands over.

use crate::answer::push_answer;
use crate::call::Call;
use crate::file::environment;
use crate::row::refuse_count;
use anyhow::{Context, Result, bail};
use dotenvy::{Environment, Error};
use std::alloc::{Allocator, Global};
use std::fs::File;
use std::os::unix::fs::symlink;
use std::path::PathBuf;
use std::{env, fs};
use test_comparison::Comparison;
use test_support::answers::{fault, pairs};
use test_support::file::FailingRead;
use test_support::notation::{bytes, list, text};
use test_support::process::Start;
use test_support::system::PlayedSystem;
use test_support::system_fault::SystemFault;

/// Where calls on files are played: a folder of their own, which is the current directory, and a system that may fail.
#[derive(Drop)]
pub struct Scene {
    rt: HostRuntime,
    home: PathBuf,
    folder: PathBuf,
    pub system: PlayedSystem,
}

// The first word and the rest.
pub fn word_and_rest<'a>(written: &'a str) -> (&'a str, &'a str) {
    written.split_once(' ').unwrap_or((written, ""))
}

impl Scene {
    /// An empty folder, and a system that does not fail. What a row left that stopped is removed.
    pub fn enter(rt: HostRuntime) -> Result<Scene> {
        let home = env::current_dir(&rt)?;
        let folder = home.join(rt.alloc(), "scene")?;
        if fs::exists(&rt, &folder)? {
            fs::remove_dir_all(&rt, &folder)?;
        }
        fs::create_dir(&rt, &folder)?;
        env::set_current_dir(&rt, &folder)?;
        Ok(Scene {
            rt,
            home,
            folder,
            system: PlayedSystem::new(rt),
        })
    }

    /// Removes the folder and all that is in it.
    pub fn leave(self) -> Result<()> {
        env::set_current_dir(&self.rt, &self.home)?;
        fs::remove_dir_all(&self.rt, &self.folder)?;
        Ok(())
    }

    /// The texts, and of paths in the folder what stands behind it.
    pub fn all_below(&self, texts: &[String]) -> Result<Vec<String>> {
        let alloc = self.rt.alloc();
        let mut all = Vec::new(alloc);
        for text in texts {
            let text = text.as_str();
            let below = text.strip_prefix(self.folder.as_str()).unwrap_or(text);
            all.push(String::from_str(alloc, below)?)?;
        }
        Ok(all)
    }

    /// What is written, with the folder's path in place of `%@`.
    pub fn placed(&self, written: &str) -> Result<String> {
        Ok(written.replace(self.rt.alloc(), "%@", self.folder.as_str())?)
    }

    /// The text that a text stands for, with the folder's path in place of `%@`.
    pub fn text(&self, written: &str) -> Result<String> {
        text(self.rt.alloc(), self.placed(written)?.as_str())
    }

    fn path(&self, written: &str) -> Result<PathBuf> {
        let name = text(self.rt.alloc(), written)?;
        Ok(self.folder.join(self.rt.alloc(), name.as_str())?)
    }

    // Makes a file of so many NULs, which the disk does not hold.
    fn write_sparse(&self, name: &str, length: &str) -> Result<()> {
        let file = File::create(&self.rt, self.path(name)?)?;
        Ok(file.set_len(length.parse()?)?)
    }

    /// Plays a step on the folder or the system, and tells whether this was one.
    pub fn play(&mut self, step: &str) -> Result<bool> {
        let (word, rest) = word_and_rest(step);
        let (name, more) = word_and_rest(rest);
        match word {
            "write" => fs::write(&self.rt, self.path(name)?, bytes(self.rt.alloc(), more)?)?,
            "sparse" => self.write_sparse(name, more)?,
            "folder" => fs::create_dir(&self.rt, self.path(name)?)?,
            "link" => symlink(&self.rt, more, self.path(name)?)?,
            "enter" => env::set_current_dir(&self.rt, self.path(name)?)?,
            _ => return self.play_on_system(word, rest),
        }
        Ok(true)
    }

    /// Plays steps none of which is a call.
    pub fn set_up(&mut self, steps: &str) -> Result<()> {
        for step in list(self.rt.alloc(), steps)? {
            if !self.play(step)? {
                bail!("no step: {step}");
            }
        }
        Ok(())
    }

    // Gives the process this entry, so many times.
    fn push_entries(&mut self, count: usize, written: &str) -> Result<()> {
        let entry = bytes(self.rt.alloc(), self.placed(written)?.as_str())?;
        for _ in 0..count {
            self.system.entries.push(entry.clone()?)?;
        }
        Ok(())
    }

    // A path in the folder, and a fault there.
    fn fault_at(&self, name: &str, fault: &str) -> Result<(String, SystemFault)> {
        Ok((self.path(name)?.into_string(), SystemFault::read(fault)?))
    }

    // Plays a step on the system.
    fn play_on_system(&mut self, word: &str, rest: &str) -> Result<bool> {
        let (name, more) = word_and_rest(rest);
        match word {
            "at" => self.system.directory = Some(self.path(name)?.into_string()),
            "lost" => self.system.lost = Some(SystemFault::read(name)?),
            "closed" => self.system.closed = Some(SystemFault::read(name)?),
            "sealed" => self.system.sealed = Some(SystemFault::read(name)?),
            "broken" => self.system.broken = Some(failing_read(name, more)?),
            "locked" => self.system.locked = Some(self.fault_at(name, more)?),
            "hidden" => self.system.hidden = Some(self.fault_at(name, more)?),
            "mended" => self.system = PlayedSystem::new(self.rt),
            "entry" => self.push_entries(1, rest)?,
            "entries" => self.push_entries(name.parse()?, more)?,
            _ => match start_of(word, name)? {
                Some(start) => self.system.start = start,
                None => return Ok(false),
            },
        }
        Ok(true)
    }
}

// The read behind this many bytes, with this fault.
fn failing_read(after: &str, fault: &str) -> Result<FailingRead> {
    Ok(FailingRead {
        after: after.parse()?,
        fault: SystemFault::read(fault)?,
    })
}

// What becomes of a command, where the step says that.
fn start_of(word: &str, name: &str) -> Result<Option<Start>> {
    Ok(Some(match word {
        "runs" => Start::Runs,
        "exits" => Start::Ends(i32::from(name.parse::<u8>()?) * 256),
        "killed" => Start::Ends(i32::from(name.parse::<u8>()?)),
        "fails" => Start::Fails(SystemFault::read(name)?),
        "unseen" => Start::IsLost(SystemFault::read(name)?),
        _ => return Ok(None),
    }))
}

/// The pairs of an environment, and `loaded` where its mark is set.
pub fn state<A: Allocator>(alloc: Global, environment: &Environment<A>) -> Result<Vec<String>> {
    let mut state = pairs(alloc, environment)?;
    if environment.loaded() {
        state.push(String::from_str(alloc, "loaded")?)?;
    }
    Ok(state)
}

// A fault as its text and its system code: `Is a directory (os error 21), Some(21)`.
fn printed(alloc: Global, error: &Error) -> Result<String> {
    let code = match error {
        Error::Io(fault) => fault.raw_os_error(),
        _ => None,
    };
    Ok(format!(in alloc; "{error}, {code:?}")?)
}

// What the steps of a row answer, one after another.
#[derive(Drop)]
struct Act<'a> {
    scene: &'a mut Scene,
    names: &'a str,
    environment: Environment,
    /// Whether faults are answered as they print.
    prints: bool,
    answers: Vec<String>,
}

impl Act<'_> {
    fn play(&mut self, step: &str) -> Result<()> {
        if self.scene.play(step)? {
            return Ok(());
        }
        match step {
            "fresh" => self.environment = environment(self.scene.rt.alloc(), self.names)?,
            "print faults" => self.prints = true,
            "looks" => {
                let looks = self.scene.system.take_looks();
                self.answers.append(&mut self.scene.all_below(&looks)?)?;
            }
            "openings" => {
                let openings = self.scene.system.take_notes();
                self.answers.append(&mut self.scene.all_below(&openings)?)?;
            }
            _ => self.call(step)?,
        }
        Ok(())
    }

    fn play_all(&mut self, steps: &str) -> Result<()> {
        for step in list(self.scene.rt.alloc(), steps)? {
            self.play(step)?;
        }
        Ok(())
    }

    // Makes a call: its answer, then the environment that it leaves.
    fn call(&mut self, step: &str) -> Result<()> {
        let alloc = self.scene.rt.alloc();
        let (word, rest) = word_and_rest(step);
        let given = self.scene.text(rest)?;
        let call = Call::named(word, given.as_str()).context("no step")?;
        let mut texts = Vec::new(alloc);
        if let Err(error) = call.make(&self.scene.system, &mut self.environment, &mut texts) {
            texts.push(self.fault(&error)?)?;
        }
        self.answers.append(&mut self.scene.all_below(&texts)?)?;
        self.answers.append(&mut state(alloc, &self.environment)?)?;
        Ok(())
    }

    // The fault as the row asks for it.
    fn fault(&self, error: &Error) -> Result<String> {
        let alloc = self.scene.rt.alloc();
        if self.prints {
            printed(alloc, error)
        } else {
            Ok(fault(alloc, error)?)
        }
    }
}

/// Plays a row of kind `process`.
pub fn play_process(answers: &mut Vec<Comparison>, rt: HostRuntime, fields: &[&str]) -> Result<()> {
    let [entries, wanted] = fields else {
        return refuse_count(fields, 2);
    };
    let system = with_entries(rt, entries)?;
    let got = state(rt.alloc(), &Environment::from_process(&system)?)?;
    push_answer(answers, "process", "read", wanted, got)
}

// A system whose process has these entries.
fn with_entries(rt: HostRuntime, entries: &str) -> Result<PlayedSystem> {
    let mut system = PlayedSystem::new(rt);
    for entry in list(rt.alloc(), entries)? {
        system.entries.push(bytes(rt.alloc(), entry)?)?;
    }
    Ok(system)
}

/// Plays a row of kind `files`.
pub fn play(answers: &mut Vec<Comparison>, scene: &mut Scene, fields: &[&str]) -> Result<()> {
    let [names, steps, wanted] = fields else {
        return refuse_count(fields, 3);
    };
    let alloc = *answers.allocator();
    let mut act = Act {
        scene,
        names,
        environment: environment(alloc, names)?,
        prints: false,
        answers: Vec::new(alloc),
    };
    act.play_all(steps)?;
    push_answer(answers, "calls", "answered", wanted, act.answers)
}
