//! Reads a chain record on standard input and writes the record of the best polygon of its outline to standard output.
#![tactic(auto)]

use anyhow::anyhow;
use exchange::{MOST_BYTES, Order, encode, report};
use std::env;
use std::io::{Read, Write};
use std::process::ExitCode;

const USAGE: &str = "usage: encode KIND MEASURE TOP BOTTOM
       encode KIND MEASURE BUDGET
KIND is 1 to 5, MEASURE is line or pace";

fn order(rt: &HostRuntime) -> Option<Order> {
    let args = env::args(rt).ok()?;
    let words = args.skip(1).collect::<Vec<String>>(rt.alloc()).ok()?;
    match words.as_slice() {
        [kind, measure, bits] => {
            Order::within_budget(kind.as_str(), measure.as_str(), bits.as_str())
        }
        [kind, measure, top, bottom] => Order::within_tolerance(
            kind.as_str(),
            measure.as_str(),
            top.as_str(),
            bottom.as_str(),
        ),
        _ => None,
    }
}

fn run(rt: &HostRuntime) -> anyhow::Result<()> {
    let order = order(rt).ok_or_else(|| anyhow!("{USAGE}"))?;
    let mut bytes = Vec::new(rt.alloc());
    rt.stdin().read_to_end(&mut bytes)?;
    let mut buffer = [0; MOST_BYTES];
    let written = encode(&bytes, order, &mut buffer)?;
    rt.stdout().write_all(&buffer[..written.bytes])?;
    Ok(())
}

fn main(rt: HostRuntime) -> ExitCode {
    report(&rt, run(&rt))
}
