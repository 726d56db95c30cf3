ghost use Rattle.replay.specs.Right.{Right, state, tools};

use crate::answer::Answer;
use crate::call::Call;
use closest::closest;
use coding::Coder;
use cost::bits::Bits;
use cost::two_part::TwoPart;
use graph::Row;
use measure::Measure;
use outline::Outline;
use search::{cheapest, finest, least};
use weighing::{Deviation, Weigher};

// Makes one call.
pub fn make_call<'a, W: Weigher, C: Coder, M: Measure>(
    outline: &mut Outline,
    weigher: &W,
    coder: &'a C,
    measure: &'a M,
    call: Call,
    rows: &mut [Row<W::Cost>],
    priced: &mut [Row<TwoPart<Bits, Deviation>>],
    straying: &mut [Row<Deviation>],
    list: &mut [u16],
) -> Answer<W::Cost>
    ensures { Right (tools W.Cost.Cost.cost (W.Weigher.weight weigher.now) (C.Coder.table coder.now) (M.Measure.strays measure.now)) (state outline.old rows.old priced.old straying.old list.old) call result (state outline.new rows.new priced.new straying.new list.new) }
{
    match call {
        Call::Open {
            width,
            height,
            col,
            row,
        } => Answer::Traced(outline.open(width, height, col, row)),
        Call::Extend { direction } => Answer::Traced(outline.extend(direction)),
        Call::Retract => Answer::Traced(outline.retract()),
        Call::Least => Answer::Least(least(weigher, outline, rows, list)),
        Call::Cheapest { top, bottom } => {
            Answer::Cheapest(cheapest(outline, coder, measure, top, bottom, priced, list))
        }
        Call::Finest => Answer::Finest(finest(outline, coder, measure, straying, list)),
        Call::Closest { budget } => {
            Answer::Closest(closest(outline, coder, measure, budget, priced, list))
        }
    }
}
