//! Lines of docs/LIBRARY.md, "From the Rust crate".

use dotenvy::{
    Environment, Iter, Plain, Result, dotenv, dotenv_iter, dotenv_override, from_filename,
    from_path, from_read, var, vars,
};
use std::fs::File;
use std::path::Path;

fn loads_files(rt: HostRuntime) -> Result<Environment> {
    let mut settings = Environment::from_process(&rt)?;
    dotenv(&rt, &mut settings)?;
    dotenv_override(&rt, &mut settings)?;
    from_filename(&rt, Path::new("service.env"), &mut settings)?;
    from_path(&rt, Path::new("service.env"), &mut settings)?;
    Ok(settings)
}

fn loads_readers(rt: HostRuntime, mut settings: Environment) -> Result<Environment> {
    let alloc = rt.alloc();
    let file = File::open(&rt, "service.env")?;
    from_read(alloc, Plain::new(file), &mut settings)?;
    let file = File::open(&rt, "service.env")?;
    let items = Iter::new(alloc, Plain::new(file))?;
    items.load(&mut settings)?;
    Ok(settings)
}

fn walks(rt: HostRuntime, mut settings: Environment) -> Result<()> {
    let port = var(&rt, &mut settings, "PORT")?;
    for (name, value) in vars(&rt, &mut settings)? {
        if value == port {
            println!(rt; "{name} is the port")?;
        }
    }
    let mut items = dotenv_iter(&rt)?;
    for item in items.items(&settings) {
        let (name, value) = item?;
        println!(rt; "{name} would be {value}")?;
    }
    Ok(())
}

/// Runs them all.
pub fn examples(rt: HostRuntime) -> Result<()> {
    let settings = loads_files(rt)?;
    let settings = loads_readers(rt, settings)?;
    walks(rt, settings)
}
