ghost use Rattle.std.specs.Prelude.{◌≡◌, ◌^◌, ◌<◌, ◌≤◌, cond, nat_le};
ghost use Rattle.coding.specs.Kinds.{by_direction, run_code, class as class_of};
ghost use Rattle.coding.specs.Legs.{leg_codes};
ghost use Rattle.coding.specs.Runs.{run_legs};

use super::bit_row::BitRow;
use super::coder::Coder;
use super::directions::{direction, displacement};
use outline::Direction;

// 1 to 15 steps of a direction: three bits for the direction, two for the class of the length, and the length's bits below its highest.
#[derive(Clone, Copy)]
pub struct Run;

// The most steps of a run.
const LONGEST: u16 = 15;

// How many bits the length of a run has below its highest.
fn class(length: u16) -> Option<u8>
    requires { 1 ≤ length }
    ensures { result ≡ cond (nat_le length 15) (Some (class_of length)) None }
{
    (length <= LONGEST).then_some((15 - length.leading_zeros()) as u8)
}

// The highest bit of the lengths of a class.
fn highest(class: u8) -> u32
    requires { class < 4 }
    ensures { result ≡ 2 ^ class }
{
    1 << class
}

impl Coder for Run {
    ghost table = { λ _. by_direction run_code };

    ghost codes = { λ s. leg_codes run_code run_legs };

    fn price(&self, dx: i16, dy: i16) -> Option<u8> {
        let (_, length) = direction(dx, dy)?;
        Some(5 + class(length)?)
    }

    fn code(&self, dx: i16, dy: i16) -> Option<(u32, u8)> {
        let (towards, length) = direction(dx, dy)?;
        let below = class(length)?;
        let top = highest(below);
        let head = u8::from(towards) as u32 * 4 + below as u32;
        Some((head * top + (length as u32 - top), 5 + below))
    }

    fn read(&self, row: BitRow<'_>) -> Option<(i16, i16, u8)> {
        let head = row.number(5)?;
        let below = (head % 4) as u8;
        let low = row.skip(5).number(below)?;
        let towards = Direction::try_from((head / 4) as u8).ok()?;
        let (dx, dy) = displacement(towards, (highest(below) + low) as u16);
        Some((dx, dy, 5 + below))
    }
}
