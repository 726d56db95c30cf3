// The edges of an outline of up to 16 points, and what the polygons made of them weigh.
use super::distance::{Spot, widest};
use super::ratio::{Ratio, ZERO};
use coding::Kind;
use measure::Chosen;
use outline::Point;

#[derive(Clone, Copy)]
pub struct Edge {
    bits: Option<usize>,
    strays: Ratio,
}

const NO_EDGE: Edge = Edge {
    bits: None,
    strays: ZERO,
};

// For each point the edges from it to each other.
pub type Edges = [[Edge; 16]; 16];

#[derive(Clone, Copy, PartialEq, Eq, Debug)]
pub struct Weight {
    pub bits: usize,
    pub strays: Ratio,
}

impl Weight {
    pub(crate) fn new() -> Weight {
        Weight {
            bits: 0,
            strays: ZERO,
        }
    }

    // With an edge more, if it has a price.
    pub(crate) fn joined(self, edge: Edge) -> Option<Weight> {
        Some(Weight {
            bits: self.bits.saturating_add(edge.bits?),
            strays: self.strays.wider(edge.strays),
        })
    }

    // Whether the bits are the same, and the straying by value.
    pub(crate) fn equals(self, other: Weight) -> bool {
        self.bits == other.bits && self.strays.equals(other.strays)
    }
}

fn run_price(steps: u64) -> Option<usize> {
    match steps {
        1 => Some(5),
        2..=3 => Some(6),
        4..=7 => Some(7),
        8..=15 => Some(8),
        _ => None,
    }
}

fn price(kind: Kind, d: Spot) -> Option<usize> {
    let (across, down) = (d.x.unsigned_abs(), d.y.unsigned_abs());
    let far = across.max(down);
    let straight = across == 0 || down == 0;
    let run = if straight || across == down {
        run_price(far)
    } else {
        None
    };
    match kind {
        Kind::Flat => Some(22),
        Kind::Run => run,
        Kind::Axis => (straight && 1 <= far && far <= 64).then_some(8),
        Kind::Chain => (far == 1).then_some(3),
        Kind::RunFlat => Some(run.map_or(23, |bits| bits.saturating_add(1))),
    }
}

// The edge from the first to the last of some points.
fn measured(leg: &[Point], kind: Kind, measure: Chosen) -> Edge {
    let [first, between @ .., last] = leg else {
        return NO_EDGE;
    };
    let (u, v) = (Spot::from(*first), Spot::from(*last));
    Edge {
        bits: price(kind, v.minus(u)),
        strays: widest(measure, u, v, between),
    }
}

// The edges of the first 16 points.
pub(crate) fn all_edges(points: &[Point], kind: Kind, measure: Chosen) -> Edges {
    let mut edges = [[NO_EDGE; 16]; 16];
    for (i, onward) in edges.iter_mut().enumerate() {
        for (j, edge) in onward.iter_mut().enumerate() {
            if i < j && j < points.len() {
                *edge = measured(&points[i..=j], kind, measure);
            }
        }
    }
    edges
}

// The weight of the polygon from point 0 to the last with a set of points between them, if all its edges have prices.
pub(crate) fn weigh(edges: &Edges, last: usize, between: u32) -> Option<Weight> {
    let mut weight = Weight::new();
    let mut onward = &edges[0];
    for (to, next) in edges.iter().enumerate() {
        if 0 < to && (to == last || (to < last && (between >> to) & 1 == 1)) {
            weight = weight.joined(onward[to])?;
            onward = next;
        }
    }
    Some(weight)
}
