ghost use Rattle.scripts.specs.Commands.{command_text};
ghost use Rattle.scripts.specs.Replies.{reply_text};
ghost use Rattle.std.specs.Prelude.{Some};

use super::command::Command;
use super::reply::{Reply, Vertices};
use std::fmt;

impl fmt::Display for Command {
    ghost output = { λ c. Some (command_text c) };

    fn fmt<W: fmt::Write>(&self, f: &mut fmt::Formatter<W>) -> fmt::Result {
        match *self {
            Command::Kind { number } => write!(f, "kind {number}"),
            Command::Measure { chosen } => write!(f, "measure {chosen}"),
            Command::Rows { places } => write!(f, "rows {}", places.count()),
            Command::List { places } => write!(f, "list {}", places.count()),
            Command::Open {
                width,
                height,
                col,
                row,
            } => write!(f, "open {width} {height} {col} {row}"),
            Command::Extend { direction } => write!(f, "extend {direction}"),
            Command::Retract => f.write_str("retract"),
            Command::LeastPriced { top, bottom } => write!(f, "least priced {top} {bottom}"),
            Command::LeastStraying => f.write_str("least straying"),
            Command::Cheapest { top, bottom } => write!(f, "cheapest {top} {bottom}"),
            Command::Finest => f.write_str("finest"),
            Command::Closest { budget } => write!(f, "closest {budget}"),
        }
    }
}

impl fmt::Display for Vertices {
    fn fmt<W: fmt::Write>(&self, f: &mut fmt::Formatter<W>) -> fmt::Result {
        f.write_joined(self.list.iter().take(self.count), ",")
    }
}

impl fmt::Display for Reply {
    ghost output = { reply_text };

    fn fmt<W: fmt::Write>(&self, f: &mut fmt::Formatter<W>) -> fmt::Result {
        match *self {
            Reply::Accepted => f.write_str("accepted"),
            Reply::Refused { number } => write!(f, "refused {number}"),
            Reply::Priced {
                vertices,
                bits,
                deviation,
            } => write!(f, "vertices {vertices} bits {bits} deviation {deviation}"),
            Reply::Straying {
                vertices,
                deviation,
            } => write!(f, "vertices {vertices} deviation {deviation}"),
            Reply::NoCall { line } => write!(f, "line {line} is no call"),
        }
    }
}
