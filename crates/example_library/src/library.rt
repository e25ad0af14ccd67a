//! The examples of docs/LIBRARY.md.

use dotenvy::{Bytes, Dialect, Environment, Error, Iter, Plain, Result, from_read, var};
use env_layers::{Layers, Mode};
use std::fs::File;
use std::path::Path;

fn loads_a_reader(rt: HostRuntime) -> Result<Environment> {
    let alloc = rt.alloc();
    let mut settings = Environment::new(alloc);
    from_read(
        alloc,
        Plain::new(File::open(&rt, "service.env")?),
        &mut settings,
    )?;
    let port = settings.get("PORT").unwrap_or("8080");
    println!(rt; "port {port}")?;
    for (name, value) in settings.iter() {
        println!(rt; "{name} is {value}")?;
    }
    Ok(settings)
}

fn reads_text(rt: HostRuntime, text: &str) -> Result<Environment> {
    let alloc = rt.alloc();
    let mut settings = Environment::new(alloc);
    from_read(alloc, Bytes::new(text.as_bytes()), &mut settings)?;
    Ok(settings)
}

fn first_use(rt: HostRuntime) -> Result<String> {
    let mut settings = Environment::from_process(&rt)?;
    let port = var(&rt, &mut settings, "PORT")?;
    Ok(port)
}

fn copies(rt: HostRuntime, settings: &Environment) -> Result<Environment> {
    let alloc = rt.alloc();
    let mut copy = Environment::new(alloc);
    for (name, value) in settings.iter() {
        copy.set(
            String::from_str(alloc, name)?,
            String::from_str(alloc, value)?,
        )?;
    }
    Ok(copy)
}

fn shows_faults(rt: HostRuntime) -> Result<()> {
    let alloc = rt.alloc();
    let environment = Environment::new(alloc);
    let mut file = Iter::new(alloc, Bytes::new(b"A=1\nB=two words\nC=$A\n"))?;
    for item in file.items(&environment) {
        match item {
            Ok((name, value)) => println!(rt; "{name} is {value}")?,
            Err(Error::LineParse(text, place)) => println!(rt; "refused at {place}: {text}")?,
            Err(error) => return Err(error),
        }
    }
    Ok(())
}

fn adds_layers(rt: HostRuntime) -> Result<Environment> {
    let alloc = rt.alloc();
    let mut layers = Layers::new(Environment::from_process(&rt)?);
    layers.add_file(&rt, Path::new("service.env"), Dialect::V15)?;
    layers.add(alloc, Bytes::new(b"PORT=8080\n"), Mode::Keep)?;
    if let Err(missing) = layers.require(alloc, &["HOST", "PORT"]) {
        eprintln!(rt; "{missing}")?; // environment variables not found: HOST
    }
    let settings = layers.into_environment();
    Ok(settings)
}

/// Runs each example, and prints what its environment has.
pub fn examples(rt: HostRuntime) -> Result<()> {
    let settings = loads_a_reader(rt)?;
    println!(rt; "copied {} names", copies(rt, &settings)?.len())?;
    println!(rt; "read {} names", reads_text(rt, "A=1\nB=$A\n")?.len())?;
    println!(rt; "the first use gives {}", first_use(rt)?)?;
    shows_faults(rt)?;
    println!(rt;
        "PORT is {}",
        adds_layers(rt)?.get("PORT").unwrap_or("not there")
    )?;
    Ok(())
}
