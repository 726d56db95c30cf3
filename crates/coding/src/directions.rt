ghost use Rattle.std.specs.Prelude.{◌≡◌, ℕ, ◌≤◌};
ghost use Rattle.coding.specs.Directions.{taken as taken_by, Along, Leads, along, numbered};
ghost use Rattle.outline.specs.Directions.{direction_number};

use outline::Direction;

// A length times the move of a direction.
fn taken(towards: Direction, length: u16) -> (i32, i32)
    ensures { result ≡ taken_by (direction_number towards) length }
{
    let (cols, rows) = towards.step();
    let length = length as i32;
    (length * cols as i32, length * rows as i32)
}

// The displacement of a direction and a length.
pub(crate) fn displacement(towards: Direction, length: u16) -> (i16, i16)
    requires { length ≤ 1023 }
    ensures { result ≡ taken_by (direction_number towards) length }
{
    let (dx, dy) = taken(towards, length);
    (dx as i16, dy as i16)
}

// The one direction that a displacement can have, by the signs of its numbers.
fn heading(dx: i16, dy: i16) -> Direction
    ensures { (d l : ℕ) → Along dx dy d l → d ≡ direction_number result }
{
    if dx > 0 {
        if dy > 0 {
            Direction::Southeast
        } else if dy < 0 {
            Direction::Northeast
        } else {
            Direction::East
        }
    } else if dx < 0 {
        if dy > 0 {
            Direction::Southwest
        } else if dy < 0 {
            Direction::Northwest
        } else {
            Direction::West
        }
    } else if dy > 0 {
        Direction::South
    } else {
        Direction::North
    }
}

// The direction and the length of a displacement that is a length times the move of a direction.
pub fn direction(dx: i16, dy: i16) -> Option<(Direction, u16)>
    ensures value { numbered result ≡ along dx dy }
    ensures rule { Leads dx dy (numbered result) }
{
    let towards = heading(dx, dy);
    let length = dx.unsigned_abs().max(dy.unsigned_abs());
    let (cols, rows) = taken(towards, length);
    if length == 0 || cols != dx as i32 || rows != dy as i32 {
        return None;
    }
    Some((towards, length))
}
