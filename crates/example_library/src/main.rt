//! Loads the settings of a service, and names what is missing.
#![tactic(auto)]

mod from_rust;
mod library;

use anyhow::{Context, Result, bail, ensure};
use dotenvy::{Environment, dotenv, from_filename};
use std::path::Path;

fn main(rt: HostRuntime) -> Result<()> {
    let mut settings = Environment::from_process(&rt)?;
    if let Err(error) = dotenv(&rt, &mut settings) {
        ensure!(error.not_found(), ".env: {error}"); // there need be no .env
    }
    from_filename(&rt, Path::new("service.env"), &mut settings).context("service.env")?;
    let Some(port) = settings.get("PORT") else {
        bail!("PORT is not set");
    };
    println!(rt; "port {port}")?;
    library::examples(rt)?;
    from_rust::examples(rt)?;
    Ok(())
}
