//! What each kind of row asks.

use crate::answer::push_answer;
use crate::scene::Scene;
use crate::{
    check, check_run, command, cut, file, layers, notation, reads, refused, refused_call,
    refused_reads, refused_words, rest, scene, search, stopped, used, written,
};
use anyhow::{Context, Result, bail};
use test_comparison::{Comparison, differences};

// Plays a row in a folder of its own.
fn play_in_scene(
    answers: &mut Vec<Comparison>,
    rt: HostRuntime,
    kind: &str,
    fields: &[&str],
) -> Result<()> {
    let mut scene = Scene::enter(rt)?;
    let played = match kind {
        "files" => scene::play(answers, &mut scene, fields),
        "run" => command::play_run(answers, &mut scene, fields),
        "check_run" => check_run::play(answers, &mut scene, fields),
        "check_input" => check_run::play_input(answers, &mut scene, fields),
        "refused_check_run" => check_run::play_refused(answers, &mut scene, fields),
        _ => refused_call::play(answers, rt, &mut scene, fields),
    };
    scene.leave()?;
    played
}

// Plays a row that asks the library.
fn play_library(
    answers: &mut Vec<Comparison>,
    rt: HostRuntime,
    kind: &str,
    fields: &[&str],
) -> Result<()> {
    match kind {
        "file" => file::play(answers, fields),
        "used" => used::play(answers, fields),
        "rest" => rest::play(answers, fields),
        "stopped" => stopped::play(answers, fields),
        "written" => written::play_written(answers, fields),
        "pair" => written::play_pair(answers, fields),
        "list" => written::play_list(answers, fields),
        "writes" => written::play_writes(answers, fields),
        "reads" => reads::play(answers, rt, fields),
        "first" => reads::play_first(answers, fields),
        "search" => search::play(answers, fields),
        "layers" => layers::play(answers, fields),
        "cut" => cut::play_items(answers, fields),
        "cut_load" => cut::play_load(answers, fields),
        "refused_items" => refused::play_items(answers, fields),
        "refused_load" => refused::play_load(answers, fields),
        "refused_list" => refused::play_list(answers, fields),
        "requests" => refused::play_requests(answers, fields),
        "refused_reads" => refused_reads::play(answers, rt, fields),
        "refused_words" => refused_words::play(answers, fields),
        "bytes" => notation::play_bytes(answers, fields),
        "steps" => notation::play_steps(answers, fields),
        "process" => scene::play_process(answers, rt, fields),
        "words" => command::play_words(answers, fields),
        "check" => check::play(answers, fields),
        "refused_check" => check::play_refused(answers, fields),
        "files" | "run" | "refused_call" | "check_run" | "check_input" | "refused_check_run" => {
            play_in_scene(answers, rt, kind, fields)
        }
        _ => bail!("no kind of row is called {kind}"),
    }
}

// What `test_replay` itself says of the row behind its name: `right`, `wrong`, or `no row`.
fn told(rt: HostRuntime, fields: &[&str]) -> Result<&'static str> {
    let (kind, fields) = fields.split_first().context("no row in a row")?;
    let mut answers = Vec::new(rt.alloc());
    if play_library(&mut answers, rt, kind, fields).is_err() {
        return Ok("no row");
    }
    if differences(rt.alloc(), &answers)?.is_empty() {
        Ok("right")
    } else {
        Ok("wrong")
    }
}

// The answer to a row that asks what is told of another one.
fn play_told(
    answers: &mut Vec<Comparison>,
    rt: HostRuntime,
    wanted: &str,
    fields: &[&str],
) -> Result<()> {
    let alloc = rt.alloc();
    let got = vec![in alloc; String::from_str(alloc, told(rt, fields)?)?]?;
    push_answer(answers, "row", "told", wanted, got)
}

/// Plays a row, and adds its answers.
pub fn play(
    answers: &mut Vec<Comparison>,
    rt: HostRuntime,
    kind: &str,
    fields: &[&str],
) -> Result<()> {
    match kind {
        "wrong" => play_told(answers, rt, "wrong", fields),
        "no_row" => play_told(answers, rt, "no row", fields),
        _ => play_library(answers, rt, kind, fields),
    }
}
