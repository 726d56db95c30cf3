ghost use Rattle.std.specs.Prelude.{◌≡◌, ◌≤◌, [], decimal, MatchOption, ◌≢◌};
ghost use Rattle.scripts.specs.Commands.{Fitting, command_text};
ghost use Rattle.scripts.specs.Numbers.{Reads};
ghost use Rattle.scripts.specs.Words.{Begun, arguments};

use super::command::Command;
use super::numbers::{four_numbers, number, two_numbers};
use super::places::Places;
use super::word::{Word, split_word};
use measure::Chosen;

fn read_places(text: &str) -> Option<Places>
    ensures { Reads (λ p. decimal p.count) (λ p. p.count ≤ 256) text.now result }
{
    Places::new(number(text)?)
}

// The command of a word that no number follows.
fn alone(command: Command, text: &str) -> Option<Command>
    ensures { MatchOption result (text.now ≢ []) (λ c. (c ≡ command) × (text.now ≡ [])) }
{
    text.is_empty().then_some(command)
}

// The command of a word and the numbers after it.
fn read_command(word: Word, text: &str) -> Option<Command>
    ensures { Reads arguments (Begun word) text.now result }
{
    match word {
        Word::Kind => Some(Command::Kind {
            number: number(text)?,
        }),
        Word::MeasureLine => alone(
            Command::Measure {
                chosen: Chosen::Line,
            },
            text,
        ),
        Word::MeasurePace => alone(
            Command::Measure {
                chosen: Chosen::Pace,
            },
            text,
        ),
        Word::Rows => Some(Command::Rows {
            places: read_places(text)?,
        }),
        Word::List => Some(Command::List {
            places: read_places(text)?,
        }),
        Word::Open => {
            let (width, height, col, row) = four_numbers(text)?;
            Some(Command::Open {
                width,
                height,
                col,
                row,
            })
        }
        Word::Extend => Some(Command::Extend {
            direction: number(text)?,
        }),
        Word::Retract => alone(Command::Retract, text),
        Word::LeastPriced => {
            let (top, bottom) = two_numbers(text)?;
            Some(Command::LeastPriced { top, bottom })
        }
        Word::LeastStraying => alone(Command::LeastStraying, text),
        Word::Cheapest => {
            let (top, bottom) = two_numbers(text)?;
            Some(Command::Cheapest { top, bottom })
        }
        Word::Finest => alone(Command::Finest, text),
        Word::Closest => Some(Command::Closest {
            budget: number(text)?,
        }),
    }
}

fn read_text(line: &str) -> Option<Command>
    ensures { Reads command_text Fitting line.now result }
{
    let (word, rest) = split_word(line)?;
    read_command(word, rest)
}

// The command that a line is the text of.
pub fn parse_line(line: &[u8]) -> Option<Command>
    ensures { Reads command_text Fitting line.now result }
{
    let text = std::str::from_utf8(line).ok()?;
    read_text(text)
}
