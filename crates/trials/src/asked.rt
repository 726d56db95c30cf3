// What is answered of an outline of up to 16 steps, and what is left behind.
use super::edges::Weight;
use super::ratio::Ratio;
use closest::closest;
use coding::{Coder, Run};
use cost::bits::Bits;
use cost::two_part::TwoPart;
use graph::Row;
use measure::{Fraction, Line, Measure};
use outline::{Outline, Refusal};
use search::{PricedPolygon, StrayingPolygon, cheapest, finest};
use weighing::Deviation;

// The rows and list places that are lent: enough for 16 steps.
pub const PLACES: usize = 17;

// What a list holds where nothing was written.
pub const KEPT: u16 = 777;

pub type PricedRow = Row<TwoPart<Bits, Deviation>>;

pub type StrayingRow = Row<Deviation>;

fn far() -> Deviation {
    Deviation {
        value: Fraction::largest(),
    }
}

// Rows that nothing leaves.
pub(crate) fn priced_row() -> PricedRow {
    Row {
        reached: true,
        cost: TwoPart {
            first: Bits { count: 1 },
            second: far(),
        },
        predecessor: KEPT,
    }
}

pub(crate) fn straying_row() -> StrayingRow {
    Row {
        reached: true,
        cost: far(),
        predecessor: KEPT,
    }
}

// A row in the numbers of the trials.
#[derive(Clone, Copy, PartialEq, Eq, Debug)]
pub struct ToldRow {
    pub reached: bool,
    pub weight: Weight,
    pub predecessor: u16,
}

impl From<PricedRow> for ToldRow {
    fn from(row: PricedRow) -> ToldRow {
        let cost = row.cost;
        ToldRow {
            reached: row.reached,
            weight: Weight {
                bits: cost.first.count as usize,
                strays: Ratio::from(cost.second.value),
            },
            predecessor: row.predecessor,
        }
    }
}

// A polygon at the front of a list: its number of vertices, and what it is said to weigh.
#[derive(Clone, Copy, PartialEq, Eq, Debug)]
pub struct Told {
    pub vertices: usize,
    pub weight: Weight,
}

impl From<PricedPolygon> for Told {
    fn from(found: PricedPolygon) -> Told {
        Told {
            vertices: found.vertices,
            weight: Weight {
                bits: found.bits as usize,
                strays: Ratio::from(found.deviation),
            },
        }
    }
}

// The answer or the refusal's number, and the rows and the list after it.
#[derive(Clone, Copy, PartialEq, Eq, Debug)]
pub struct Asked {
    pub answer: Result<Told, u8>,
    pub rows: [ToldRow; PLACES],
    pub list: [u16; PLACES],
}

impl Asked {
    // Of a search in lent rows and a lent list.
    fn of<S: FnOnce(&mut [PricedRow], &mut [u16]) -> Result<PricedPolygon, Refusal>>(
        search: S,
    ) -> Asked
        requires { S.IsAlwaysCallable search }
    {
        let mut rows = [priced_row(); PLACES];
        let mut list = [KEPT; PLACES];
        let answer = search(&mut rows, &mut list);
        Asked {
            answer: answer.map(Told::from).map_err(|refusal| refusal.number()),
            rows: rows.map(ToldRow::from),
            list,
        }
    }

    // Whether just these vertices are answered, with these bits and this deviation.
    pub(crate) fn is(&self, vertices: &[u16], bits: usize, top: i64, bottom: i64) -> bool {
        let told = Told {
            vertices: vertices.len(),
            weight: Weight {
                bits,
                strays: Ratio { top, bottom },
            },
        };
        let rest = self.list.strip_prefix(vertices);
        self.answer == Ok(told) && rest.is_some_and(|rest| rest.iter().all(|k| *k == KEPT))
    }

    pub(crate) fn is_refused_by(&self, number: u8) -> bool {
        self.answer == Err(number) && self.list == [KEPT; PLACES]
    }
}

pub(crate) fn ask_cheapest<C: Coder, M: Measure>(
    outline: &Outline,
    coder: &C,
    measure: &M,
    top: u64,
    bottom: u64,
) -> Asked {
    Asked::of(|rows, list| cheapest(outline, coder, measure, top, bottom, rows, list))
}

pub(crate) fn ask_closest<C: Coder, M: Measure>(
    outline: &Outline,
    coder: &C,
    measure: &M,
    budget: u16,
) -> Asked {
    Asked::of(|rows, list| closest(outline, coder, measure, budget, rows, list))
}

pub(crate) fn ask_finest<C: Coder, M: Measure>(
    outline: &Outline,
    coder: &C,
    measure: &M,
    list: &mut [u16; PLACES],
) -> Result<StrayingPolygon, u8> {
    let mut rows = [straying_row(); PLACES];
    finest(outline, coder, measure, &mut rows, list).map_err(|refusal| refusal.number())
}

// 0 where cheapest by run and line at 2/1 answers, or its refusal's number.
pub(crate) fn answered(outline: &Outline, rows: &mut [PricedRow], list: &mut [u16]) -> u8 {
    cheapest(outline, &Run, &Line, 2, 1, rows, list).map_or_else(|refusal| refusal.number(), |_| 0)
}
