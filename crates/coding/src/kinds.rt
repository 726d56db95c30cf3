ghost use Rattle.std.specs.Prelude.{◌≡◌};
ghost use Rattle.coding.specs.Kinds.{KindOf, kind_number, kind_table, by_direction, run_code, axis_code, chain_code};
ghost use Rattle.coding.specs.declared.kind.Kind.TheVariants.{Flat, Run, Axis, Chain, RunFlat};
ghost use Rattle.coding.specs.Kinds;
ghost use Rattle.coding.specs.Axes.{axis_legs};
ghost use Rattle.coding.specs.Chains.{chain_legs};
ghost use Rattle.coding.specs.Flats.{flat_codes};
ghost use Rattle.coding.specs.Legs.{leg_codes};
ghost use Rattle.coding.specs.Pairs.{pair_codes};
ghost use Rattle.coding.specs.Runs.{run_legs};

use super::axis::Axis;
use super::bit_row::BitRow;
use super::chain::Chain;
use super::coder::Coder;
use super::flat::Flat;
use super::kind::Kind;
use super::pair::Pair;
use super::run::Run;
use outline::Refusal;

const RUN_FLAT: Pair<Run, Flat> = Pair {
    first: Run,
    second: Flat,
};

impl TryFrom<u16> for Kind {
    type Error = Refusal;

    ghost try_from_gives = { KindOf };

    fn try_from(number: u16) -> Result<Self, Refusal> {
        match number {
            1 => Ok(Kind::Flat),
            2 => Ok(Kind::Run),
            3 => Ok(Kind::Axis),
            4 => Ok(Kind::Chain),
            5 => Ok(Kind::RunFlat),
            _ => Err(Refusal::Kind),
        }
    }
}

impl From<Kind> for u16 {
    ghost from_gives = { λ kind number. number ≡ kind_number kind };

    fn from(kind: Kind) -> u16 {
        kind as u16
    }
}

impl Coder for Kind {
    ghost table = { kind_table };

    ghost codes = { elim [
      | Flat ↦ flat_codes
      | Run ↦ leg_codes run_code run_legs
      | Axis ↦ leg_codes axis_code axis_legs
      | Chain ↦ leg_codes chain_code chain_legs
      | RunFlat ↦ pair_codes (by_direction run_code) Kinds.flat (leg_codes run_code run_legs) flat_codes
    ] };

    fn price(&self, dx: i16, dy: i16) -> Option<u8> {
        match *self {
            Kind::Flat => Flat.price(dx, dy),
            Kind::Run => Run.price(dx, dy),
            Kind::Axis => Axis.price(dx, dy),
            Kind::Chain => Chain.price(dx, dy),
            Kind::RunFlat => RUN_FLAT.price(dx, dy),
        }
    }

    fn code(&self, dx: i16, dy: i16) -> Option<(u32, u8)> {
        match *self {
            Kind::Flat => Flat.code(dx, dy),
            Kind::Run => Run.code(dx, dy),
            Kind::Axis => Axis.code(dx, dy),
            Kind::Chain => Chain.code(dx, dy),
            Kind::RunFlat => RUN_FLAT.code(dx, dy),
        }
    }

    fn read(&self, row: BitRow<'_>) -> Option<(i16, i16, u8)> {
        match *self {
            Kind::Flat => Flat.read(row),
            Kind::Run => Run.read(row),
            Kind::Axis => Axis.read(row),
            Kind::Chain => Chain.read(row),
            Kind::RunFlat => RUN_FLAT.read(row),
        }
    }
}
