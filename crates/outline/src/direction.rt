ghost use Rattle.std.specs.Prelude.{◌≡◌, IsOkAnd};
ghost use Rattle.outline.specs.Directions.{direction_number, Numbered};
ghost use Rattle.outline.specs.Moves.{move};

use super::moves::MOVES;
use super::refusal::Refusal;

// The eight directions, by their numbers 0 to 7.
#[derive(Clone, Copy, PartialEq, Eq, Debug)]
pub enum Direction {
    East,
    Northeast,
    North,
    Northwest,
    West,
    Southwest,
    South,
    Southeast,
}

impl Direction {
    // What the direction adds to column and row.
    pub fn step(self) -> (i16, i16)
        ensures { result ≡ move (direction_number self) }
    {
        // Borrowed, the table stays where the program has it; indexed itself, it would be written out anew at each call.
        let moves = &MOVES;
        moves[self as usize]
    }
}

impl From<Direction> for u8 {
    ghost from_gives = { λ d r. r ≡ direction_number d };

    fn from(direction: Direction) -> u8 {
        direction as u8
    }
}

impl TryFrom<u8> for Direction {
    type Error = Refusal;

    ghost try_from_gives = { Numbered };

    fn try_from(number: u8) -> Result<Direction, Refusal> {
        match number {
            0 => Ok(Direction::East),
            1 => Ok(Direction::Northeast),
            2 => Ok(Direction::North),
            3 => Ok(Direction::Northwest),
            4 => Ok(Direction::West),
            5 => Ok(Direction::Southwest),
            6 => Ok(Direction::South),
            7 => Ok(Direction::Southeast),
            _ => Err(Refusal::Direction),
        }
    }
}
