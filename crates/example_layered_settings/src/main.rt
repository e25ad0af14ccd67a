//! An example: two files over one environment, of which the second overrides the first.
#![tactic(auto)]

use dotenvy::{Dialect, Environment, Result};
use env_layers::{Layers, Mode};
use std::path::Path;

fn main(rt: HostRuntime) -> Result<()> {
    let mut layers = Layers::new(Environment::from_process(&rt)?);
    layers.add_file(&rt, Path::new("base.env"), Dialect::V15)?;
    layers.add_file_with(&rt, Path::new("local.env"), Dialect::V15, Mode::Override)?;
    let settings = layers.into_environment();
    for name in ["HOST", "PORT", "URL"] {
        let value = settings.get(name).unwrap_or("not set");
        println!(rt; "{name} is {value}")?;
    }
    Ok(())
}
