//! Reads a record of any kind on standard input and prints its kind and its vertices.
#![tactic(auto)]

use anyhow::anyhow;
use exchange::{decode, report};
use std::env;
use std::io::{Read, Write};
use std::process::ExitCode;

const USAGE: &str = "usage: decode";

fn is_called_alone(rt: &HostRuntime) -> bool {
    env::args(rt).is_ok_and(|args| args.count() == 1)
}

fn run(rt: &HostRuntime) -> anyhow::Result<()> {
    if !is_called_alone(rt) {
        return Err(anyhow!("{USAGE}"));
    }
    let mut bytes = Vec::new(rt.alloc());
    rt.stdin().read_to_end(&mut bytes)?;
    let decoded = decode(&bytes)?;
    let text = format!(in rt.alloc(); "{decoded}")?;
    rt.stdout().write_all(text.as_bytes())?;
    Ok(())
}

fn main(rt: HostRuntime) -> ExitCode {
    report(&rt, run(&rt))
}
