//! Reads a script of calls on standard input and prints the answer to each of its lines.
#![tactic(auto)]

use scripts::Session;
use std::io;
use std::io::{BufRead, BufReader};

fn main(rt: HostRuntime) -> io::Result<()> {
    let mut session = Session::new();
    let mut number = 0u64;
    for line in BufReader::new(rt.alloc(), rt.stdin())?.split(rt.alloc(), b'\n') {
        let line = line?;
        number = number.saturating_add(1);
        let reply = session.answer(number, &line);
        println!(rt; "{reply}")?;
    }
    Ok(())
}
