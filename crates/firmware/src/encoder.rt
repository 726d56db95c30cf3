ghost use Rattle.std.specs.Prelude.{◌≡◌};
ghost use Rattle.measure.specs.Choice.{chosen_strays};
ghost use Rattle.records.specs.Reading.{all_kinds};
ghost use Rattle.closest.specs.declared.goal.Goal.TheVariants.{Tolerance as ByTolerance, Budget as ByBudget};
ghost use Rattle.firmware.specs.Told.{measure_by, EncodeTold};

use super::told::told;
use exchange::{Goal, Order, encode};
use measure::Chosen;
use outline::Refusal;
use records::Written;

fn measure_by(pace: bool) -> Chosen
    ensures { result ≡ measure_by pace }
{
    if pace { Chosen::Pace } else { Chosen::Line }
}

// Writes the record of the best polygon of a chain record's outline, and tells C how that went.
fn encode_told(chain: &[u8], order: Order, buffer: &mut [u8], written: &mut Written) -> i32
    ensures { EncodeTold (all_kinds order.kind) order.kind (chosen_strays order.measure) order.goal chain.now buffer.old buffer.new written.old written.new result }
{
    let answer = encode(chain, order, buffer);
    told(answer.map_err(Refusal::from), written)
}

// The cheapest polygon within a tolerance.
pub fn polygon_cheapest(
    chain: &[u8],
    kind: u16,
    pace: bool,
    top: u64,
    bottom: u64,
    buffer: &mut [u8],
    written: &mut Written,
) -> i32
    ensures { EncodeTold (all_kinds kind) kind (chosen_strays (measure_by pace)) (ByTolerance top bottom) chain.now buffer.old buffer.new written.old written.new result }
{
    let order = Order {
        kind,
        measure: measure_by(pace),
        goal: Goal::Tolerance { top, bottom },
    };
    encode_told(chain, order, buffer, written)
}

// The closest polygon within a budget of bits.
pub fn polygon_closest(
    chain: &[u8],
    kind: u16,
    pace: bool,
    budget: u16,
    buffer: &mut [u8],
    written: &mut Written,
) -> i32
    ensures { EncodeTold (all_kinds kind) kind (chosen_strays (measure_by pace)) (ByBudget budget) chain.now buffer.old buffer.new written.old written.new result }
{
    let order = Order {
        kind,
        measure: measure_by(pace),
        goal: Goal::Budget(budget),
    };
    encode_told(chain, order, buffer, written)
}
