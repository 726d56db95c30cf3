// The longest edge, counted in points, of polygons that keep off a point.
ghost use Rattle.std.specs.Prelude.{◌-◌, max, not, ◌&&◌, length, if◌then◌else◌, Some, None, ◌==◌, nat_le, nat_lt};
ghost use Rattle.std.proofs.Common.{rules};

use crate::{Found, least};
use cost::Cost;
use graph::Row;
use outline::{Outline, Refusal};
use std::process::Abort;
use weighing::Weigher;

#[derive(Clone, Copy)]
struct Longest {
    edge: usize,
}

impl Cost for Longest {
    type Weight = usize;

    ghost cost = { record { start = record { edge = 0 }; join = λ c w. record { edge = max c.edge w }; above = λ a b. nat_lt b.edge a.edge } };

    ghost laws = { Prim.search rules };

    fn start() -> Longest {
        Longest { edge: 0 }
    }

    fn join(self, weight: usize) -> Longest {
        Longest {
            edge: self.edge.max(weight),
        }
    }

    fn above(self, other: Longest) -> bool {
        self.edge > other.edge
    }
}

#[derive(Drop)]
struct Spans {
    reach: usize,
    off: usize,
}

impl Weigher for Spans {
    type Weight = usize;

    type Cost = Longest;

    ghost weight = { λ s ps i j. (if nat_lt i j && nat_lt j (length ps) then (if nat_le (j - i) s.reach && not (j == s.off) then Some (j - i) else None) else None) };

    fn weight(&self, outline: &Outline, i: usize, j: usize) -> Option<usize> {
        if i < j && j < outline.len() {
            if j - i <= self.reach && j != self.off {
                Some(j - i)
            } else {
                None
            }
        } else {
            None
        }
    }
}

const JUNK: Row<Longest> = Row {
    reached: true,
    cost: Longest { edge: 7 },
    predecessor: 7,
};

fn six_points(rt: &impl Abort) -> Outline {
    let mut outline = Outline::new();
    assert!(rt; outline.open(8, 8, 0, 0).is_ok());
    for _ in 0..5 {
        assert!(rt; outline.extend(0).is_ok());
    }
    outline
}

// The longest edge of the polygon with these points between the first and the last, if it is usable.
fn longest_edge(spans: &Spans, outline: &Outline, between: u8) -> Option<usize> {
    let mut longest = 0;
    let mut from = 0;
    for to in 1..6usize {
        if to == 5 || (between >> to) & 1 == 1 {
            longest = longest.max(spans.weight(outline, from, to)?);
            from = to;
        }
    }
    Some(longest)
}

// The least of all polygons of six points, one by one.
fn least_of_all(spans: &Spans, outline: &Outline) -> Option<usize> {
    (0..32u8)
        .filter_map(|between| longest_edge(spans, outline, between))
        .min()
}

fn number(answer: Result<Found<Longest>, Refusal>) -> u8 {
    answer.map_or_else(|refusal| refusal.number(), |_| 0)
}

#[test]
fn the_least_of_all_polygons(rt: HostRuntime) {
    let outline = six_points(&rt);
    for reach in 0..6 {
        for off in 0..7 {
            let spans = Spans { reach, off };
            let mut list = [9; 6];
            let found = least(&spans, &outline, &mut [JUNK; 6], &mut list).ok();
            assert_eq!(rt;
                found.map(|found| found.cost.edge),
                least_of_all(&spans, &outline)
            );
        }
    }
}

// Points 2 and 3 lead to point 4 at the same cost, and 3 and 4 to point 5: the lower is taken.
#[test]
fn the_lowest_of_equals(rt: HostRuntime) {
    let mut rows = [JUNK; 7];
    let mut list = [9; 8];
    let answer = least(
        &Spans { reach: 2, off: 1 },
        &six_points(&rt),
        &mut rows,
        &mut list,
    );
    assert_eq!(rt; number(answer), 0);
    assert_eq!(rt; list, [0, 2, 3, 5, 9, 9, 9, 9]);
    assert!(rt; !rows[1].reached);
    assert_eq!(rt; rows[1].predecessor, 0);
    assert_eq!(rt; rows[4].predecessor, 2);
    assert_eq!(rt; rows[5].cost.edge, 2);
    assert_eq!(rt; rows[6].predecessor, 7);
}

#[test]
fn refused_in_order(rt: HostRuntime) {
    let outline = six_points(&rt);
    let spans = Spans { reach: 1, off: 3 };
    assert_eq!(rt;
        number(least(&spans, &outline, &mut [JUNK; 5], &mut [9; 5])),
        24
    );
    let mut kept = [JUNK; 6];
    assert_eq!(rt; number(least(&spans, &outline, &mut kept, &mut [9; 5])), 23);
    assert_eq!(rt; kept[0].predecessor, 7);
    let mut rows = [JUNK; 6];
    let mut list = [9; 6];
    assert_eq!(rt; number(least(&spans, &outline, &mut rows, &mut list)), 26);
    assert_eq!(rt; list, [9, 9, 9, 9, 9, 9]);
    assert_eq!(rt; rows[2].predecessor, 1);
}
