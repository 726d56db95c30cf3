ghost use Rattle.std.specs.Prelude.{◌≡◌, ◌%◌, ◌&&◌, ◌==◌, nat_le};
ghost use Rattle.outline.specs.Directions.{direction_number};
ghost use Rattle.coding.specs.Kinds.{by_direction, axis_code};
ghost use Rattle.coding.specs.Axes.{axis_legs};
ghost use Rattle.coding.specs.Legs.{leg_codes};

use super::bit_row::BitRow;
use super::coder::Coder;
use super::directions::{direction, displacement};
use outline::Direction;

// 1 to 64 steps of direction 0, 2, 4 or 6: two bits for the direction, six for the length.
#[derive(Clone, Copy)]
pub struct Axis;

// The most steps of a code.
const LONGEST: u16 = 64;

// Whether a direction and a length have a code.
fn has_code(towards: Direction, length: u16) -> bool
    ensures { result ≡ (direction_number towards % 2 == 0 && nat_le length 64) }
{
    u8::from(towards) % 2 == 0 && length <= LONGEST
}

impl Coder for Axis {
    ghost table = { λ _. by_direction axis_code };

    ghost codes = { λ s. leg_codes axis_code axis_legs };

    fn price(&self, dx: i16, dy: i16) -> Option<u8> {
        let (towards, length) = direction(dx, dy)?;
        has_code(towards, length).then_some(8)
    }

    fn code(&self, dx: i16, dy: i16) -> Option<(u32, u8)> {
        let (towards, length) = direction(dx, dy)?;
        let bits = u8::from(towards) as u32 / 2 * 64 + (length as u32 - 1);
        has_code(towards, length).then_some((bits, 8))
    }

    fn read(&self, row: BitRow<'_>) -> Option<(i16, i16, u8)> {
        let bits = row.number(8)?;
        let towards = Direction::try_from((bits / 64 * 2) as u8).ok()?;
        let (dx, dy) = displacement(towards, (bits % 64 + 1) as u16);
        Some((dx, dy, 8))
    }
}
