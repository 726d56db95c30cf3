//! The archive for C: each function is the one of the same name in the library for the firmware, with its promise.
#![tactic(auto)]

ghost use Rattle.measure.specs.Choice.{chosen_strays};
ghost use Rattle.records.specs.Reading.{all_kinds};
ghost use Rattle.closest.specs.declared.goal.Goal.TheVariants.{Tolerance as ByTolerance, Budget as ByBudget};
ghost use Rattle.firmware.specs.Told.{measure_by, EncodeTold, ReadTold};

use outline::Point;
use records::{Reading, Written};

// The cheapest polygon within a tolerance.
#[unsafe(no_mangle)]
pub extern "C" fn polygon_cheapest(
    chain: &[u8],
    kind: u16,
    pace: bool,
    top: u64,
    bottom: u64,
    buffer: &mut [u8],
    written: &mut Written,
) -> i32
    ensures { EncodeTold (all_kinds kind) kind (chosen_strays (measure_by pace)) (ByTolerance top bottom) chain.now buffer.old buffer.new written.old written.new result }
{
    firmware::polygon_cheapest(chain, kind, pace, top, bottom, buffer, written)
}

// The closest polygon within a budget of bits.
#[unsafe(no_mangle)]
pub extern "C" fn polygon_closest(
    chain: &[u8],
    kind: u16,
    pace: bool,
    budget: u16,
    buffer: &mut [u8],
    written: &mut Written,
) -> i32
    ensures { EncodeTold (all_kinds kind) kind (chosen_strays (measure_by pace)) (ByBudget budget) chain.now buffer.old buffer.new written.old written.new result }
{
    firmware::polygon_closest(chain, kind, pace, budget, buffer, written)
}

// The kind and the vertices of a record of any kind.
#[unsafe(no_mangle)]
pub extern "C" fn polygon_read(bytes: &[u8], list: &mut [Point], reading: &mut Reading) -> i32
    ensures { ReadTold bytes.now list.old list.new reading.old reading.new result }
{
    firmware::polygon_read(bytes, list, reading)
}
