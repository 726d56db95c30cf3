ghost use Rattle.std.specs.Prelude.{◌≡◌, length, take, drop};
ghost use Rattle.outline.specs.Plain.{plain};
ghost use Rattle.outline.specs.Rules.{Rules};
ghost use Rattle.replay.specs.Ample.{Ample, BestRun};
ghost use Rattle.replay.specs.Right.{state, tools};
ghost use Rattle.replay.specs.Runs.{Run};
ghost use Rattle.replay.specs.Traced.{AsTraced};

use crate::call::Call;
use crate::entry::Entry;
use crate::make::make_call;
use coding::Coder;
use cost::bits::Bits;
use cost::two_part::TwoPart;
use graph::Row;
use measure::Measure;
use outline::Outline;
use weighing::{Deviation, Weigher};

// Makes the calls one after the other, refused or not, and notes each, as long as there is an entry for it.
pub fn replay<'a, W: Weigher, C: Coder, M: Measure>(
    outline: &mut Outline,
    weigher: &W,
    coder: &'a C,
    measure: &'a M,
    calls: &[Call],
    rows: &mut [Row<W::Cost>],
    priced: &mut [Row<TwoPart<Bits, Deviation>>],
    straying: &mut [Row<Deviation>],
    list: &mut [u16],
    entries: &mut [Entry<W::Cost>],
)
    ensures run { Run (tools W.Cost.Cost.cost (W.Weigher.weight weigher.now) (C.Coder.table coder.now) (M.Measure.strays measure.now)) (state outline.old rows.old priced.old straying.old list.old) (take (length entries.old) calls.now) (take (length calls.now) entries.new) (state outline.new rows.new priced.new straying.new list.new) }
    ensures best { Ample (state outline.old rows.old priced.old straying.old list.old) → BestRun (tools W.Cost.Cost.cost (W.Weigher.weight weigher.now) (C.Coder.table coder.now) (M.Measure.strays measure.now)) (plain outline.old) (take (length entries.old) calls.now) (take (length calls.now) entries.new) }
    ensures further { drop (length calls.now) entries.new ≡ drop (length calls.now) entries.old }
    ensures traced { AsTraced (plain outline.old) (take (length entries.old) calls.now) (take (length calls.now) entries.new) (plain outline.new) }
    ensures rules { Rules (plain outline.new) }
{
    for (i, entry) in entries.iter_mut().enumerate() {
        let Some(call) = calls.get(i) else {
            break;
        };
        let answer = make_call(
            outline, weigher, coder, measure, *call, rows, priced, straying, list,
        );
        *entry = Entry::of(answer, list);
    }
}
