use super::asked::{Asked, KEPT, PLACES, Told, ask_cheapest, ask_closest, ask_finest};
use super::edges::{Edges, Weight, all_edges, weigh};
use super::ratio::Ratio;
use super::tally::Tally;
use coding::Kind;
use measure::{Chosen, Line, Pace};
use outline::Outline;
use search::StrayingPolygon;

// The tolerance that keeps every edge.
pub const LARGEST: Ratio = Ratio {
    top: (1 << 40) - 1,
    bottom: 1,
};

// Tolerances that short outlines stray by, some between those, and the largest.
pub const TOLERANCES: [Ratio; 8] = [
    Ratio { top: 0, bottom: 1 },
    Ratio { top: 1, bottom: 2 },
    Ratio { top: 4, bottom: 5 },
    Ratio { top: 1, bottom: 1 },
    Ratio { top: 2, bottom: 1 },
    Ratio { top: 7, bottom: 3 },
    Ratio { top: 8, bottom: 1 },
    LARGEST,
];

// Every kind of code with every measure.
pub const CODED: [(Kind, Chosen); 10] = [
    (Kind::Flat, Chosen::Line),
    (Kind::Run, Chosen::Line),
    (Kind::Axis, Chosen::Line),
    (Kind::Chain, Chosen::Line),
    (Kind::RunFlat, Chosen::Line),
    (Kind::Flat, Chosen::Pace),
    (Kind::Run, Chosen::Pace),
    (Kind::Axis, Chosen::Pace),
    (Kind::Chain, Chosen::Pace),
    (Kind::RunFlat, Chosen::Pace),
];

// An outline with a kind of code and a measure, and all its polygons by their bits.
#[derive(Drop)]
pub struct Trial {
    pub outline: Outline,
    pub kind: Kind,
    pub measure: Chosen,
    pub edges: Edges,
    pub tally: Tally,
}

// The points of a list as a set, where it rises from 0 to the last one and nothing is written behind it.
fn points_of(list: &[u16; PLACES], vertices: usize, last: usize) -> Option<u32> {
    let (polygon, rest) = list.split_at_checked(vertices)?;
    let ends = polygon.first() == Some(&0) && polygon.last().is_some_and(|k| *k as usize == last);
    let rises = polygon.is_sorted_by(|point, next| point < next);
    if !ends || !rises || rest.iter().any(|place| *place != KEPT) {
        return None;
    }
    Some(
        polygon
            .iter()
            .fold(0, |set, point| set | 1 << (*point % 16)),
    )
}

impl Trial {
    pub(crate) fn new(outline: &Outline, kind: Kind, measure: Chosen) -> Trial {
        let edges = all_edges(outline.points(), kind, measure);
        let tally = Tally::of(&edges, outline.len().wrapping_sub(1));
        Trial {
            outline: *outline,
            kind,
            measure,
            edges,
            tally,
        }
    }

    // The weight of the polygon that a list begins with.
    pub(crate) fn weight_of(&self, list: &[u16; PLACES], vertices: usize) -> Option<Weight> {
        let last = self.outline.len().wrapping_sub(1);
        weigh(&self.edges, last, points_of(list, vertices, last)?)
    }

    pub(crate) fn ask_cheapest(&self, tolerance: Ratio) -> Asked {
        let (top, bottom) = (
            tolerance.top.unsigned_abs(),
            tolerance.bottom.unsigned_abs(),
        );
        match self.measure {
            Chosen::Line => ask_cheapest(&self.outline, &self.kind, &Line, top, bottom),
            Chosen::Pace => ask_cheapest(&self.outline, &self.kind, &Pace, top, bottom),
        }
    }

    pub(crate) fn ask_closest(&self, budget: u16) -> Asked {
        match self.measure {
            Chosen::Line => ask_closest(&self.outline, &self.kind, &Line, budget),
            Chosen::Pace => ask_closest(&self.outline, &self.kind, &Pace, budget),
        }
    }

    pub(crate) fn ask_finest(&self, list: &mut [u16; PLACES]) -> Result<StrayingPolygon, u8> {
        match self.measure {
            Chosen::Line => ask_finest(&self.outline, &self.kind, &Line, list),
            Chosen::Pace => ask_finest(&self.outline, &self.kind, &Pace, list),
        }
    }

    // Whether a list begins with the polygon told, of just its weight, and that is as good as the best.
    pub(crate) fn is_best(&self, told: Told, list: &[u16; PLACES], best: Weight) -> bool {
        self.weight_of(list, told.vertices)
            .is_some_and(|own| own == told.weight && own.equals(best))
    }
}
