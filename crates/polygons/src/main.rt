//! Reads a chain record on standard input and prints the cheapest polygon of its outline for each kind of code.
#![tactic(auto)]

use listing::{header, kind_refused, list_record, record_refused};
use std::io;
use std::io::{Read, Write};

fn main(rt: HostRuntime) -> io::Result<()> {
    let mut bytes = Vec::new(rt.alloc());
    rt.stdin().read_to_end(&mut bytes)?;
    match list_record(&bytes) {
        Err(fault) => rt.stdout().write_all(record_refused(fault)),
        Ok(lines) => {
            rt.stdout().write_all(header())?;
            for line in lines {
                match line {
                    Ok(numbers) => println!(rt; "{numbers}")?,
                    Err(kind) => rt.stdout().write_all(kind_refused(kind))?,
                }
            }
            Ok(())
        }
    }
}
