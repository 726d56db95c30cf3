ghost use Rattle.coding.specs.Kinds.{by_direction, chain_code};
ghost use Rattle.coding.specs.Chains.{chain_legs};
ghost use Rattle.coding.specs.Legs.{leg_codes};

use super::bit_row::BitRow;
use super::coder::Coder;
use super::directions::{direction, displacement};
use outline::Direction;

// One step of a direction, in three bits.
#[derive(Clone, Copy)]
pub struct Chain;

impl Coder for Chain {
    ghost table = { λ _. by_direction chain_code };

    ghost codes = { λ s. leg_codes chain_code chain_legs };

    fn price(&self, dx: i16, dy: i16) -> Option<u8> {
        let (_, length) = direction(dx, dy)?;
        (length == 1).then_some(3)
    }

    fn code(&self, dx: i16, dy: i16) -> Option<(u32, u8)> {
        let (towards, length) = direction(dx, dy)?;
        (length == 1).then_some((u8::from(towards) as u32, 3))
    }

    fn read(&self, row: BitRow<'_>) -> Option<(i16, i16, u8)> {
        let bits = row.number(3)?;
        let towards = Direction::try_from(bits as u8).ok()?;
        let (dx, dy) = displacement(towards, 1);
        Some((dx, dy, 3))
    }
}
