ghost use Rattle.std.specs.Prelude.{◌≡◌, ◌≤◌, length, IfOk, Err, ◌≢◌};
ghost use Rattle.coding.specs.Kinds.{kind_number, kind_table};
ghost use Rattle.measure.specs.Choice.{chosen_strays};
ghost use Rattle.outline.specs.Plain.{plain};
ghost use Rattle.outline.specs.declared.refusal.Refusal.TheVariants.{BufferShort};
ghost use Rattle.records.specs.Reading.{all_kinds};
ghost use Rattle.exchange.specs.Encoding.{BestWritten, Encoded};
ghost use Rattle.exchange.specs.declared.failure.Failure.TheVariants.{Refused as ByRefusal};

use super::failure::Failure;
use super::order::Order;
use closest::{Goal, best_polygon};
use coding::Kind;
use graph::Row;
use measure::Chosen;
use outline::{Outline, Refusal};
use records::{Written, write_kind};
use tracing::read_outline;

// The most bytes of a record: a head of 9, and 255 codes of 23 bits.
pub const MOST_BYTES: usize = 743;

// Writes the record of the best polygon of an outline.
fn write_best(
    outline: &Outline,
    kind: Kind,
    measure: Chosen,
    goal: Goal,
    buffer: &mut [u8],
) -> Result<Written, Refusal>
    ensures { BestWritten (kind_table kind) (kind_number kind) (chosen_strays measure) goal (plain outline.now).points buffer.old buffer.new result }
{
    let mut rows = [Row::unreached(); 256];
    let mut list = [0; 256];
    let found = best_polygon(goal, outline, &kind, &measure, &mut rows, &mut list)?;
    write_kind(
        u16::from(kind),
        &kind,
        outline,
        &list[..found.vertices],
        buffer,
    )
}

// Writes the record of the best polygon of a chain record's outline.
pub fn encode(bytes: &[u8], order: Order, buffer: &mut [u8]) -> Result<Written, Failure>
    ensures right { Encoded (all_kinds order.kind) order.kind (chosen_strays order.measure) order.goal bytes.now buffer.old buffer.new result }
    ensures within { IfOk result (λ w. w.bytes ≤ length buffer.old) }
    ensures ample { 743 ≤ length buffer.old → result ≢ Err (ByRefusal BufferShort) }
{
    let kind = Kind::try_from(order.kind)?;
    let outline = read_outline(bytes)?;
    Ok(write_best(&outline, kind, order.measure, order.goal, buffer)?)
}
