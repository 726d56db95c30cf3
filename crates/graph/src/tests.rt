// Four places whose weights are written out.
ghost use Rattle.std.specs.Prelude.{◌+◌, ◌*◌, ◌&&◌, if◌then◌else◌, None, nat_lt, slice_index_or};

use crate::{Graph, Row, fill, read_back};
use cost::bits::Bits;
use cost::price::Price;

#[derive(Drop)]
struct Four {
    weights: [Option<Price>; 16],
}

impl Graph for Four {
    type Weight = Price;

    type Cost = Bits;

    ghost places = { λ g. 4 };

    ghost edge = { λ g i j. (if nat_lt i 4 && nat_lt j 4 then slice_index_or g.weights (4 * i + j) None else None) };

    ghost depth = { λ g j. j };

    fn places(&self) -> usize {
        4
    }

    fn edge(&self, from: usize, to: usize) -> Option<Price> {
        if from < 4 && to < 4 {
            self.weights[4 * from + to]
        } else {
            None
        }
    }
}

const JUNK: Row<Bits> = Row {
    reached: true,
    cost: Bits { count: 9 },
    predecessor: 7,
};

fn diamond() -> Four {
    let mut weights = [None; 16];
    weights[1] = Price::new(2);
    weights[2] = Price::new(2);
    weights[3] = Price::new(6);
    weights[7] = Price::new(3);
    weights[11] = Price::new(3);
    Four { weights }
}

// Two ways cost the same: the one by the lower place is taken.
#[test]
fn lowest_of_equals(rt: HostRuntime) {
    let mut rows = [JUNK; 5];
    assert!(rt; fill(&diamond(), &mut rows).is_ok());
    assert_eq!(rt; rows[3].cost.count, 5);
    assert_eq!(rt; rows[3].predecessor, 1);
    assert_eq!(rt; rows[4].cost.count, 9);
    let mut list = [8; 4];
    assert_eq!(rt; read_back(&rows, 3, &mut list), Some(3));
    assert_eq!(rt; list, [0, 1, 3, 8]);
}

// A place that no edge leads to is not reached, and has no list.
#[test]
fn unreached(rt: HostRuntime) {
    let mut graph = diamond();
    graph.weights[1] = None;
    let mut rows = [JUNK; 4];
    assert!(rt; fill(&graph, &mut rows).is_ok());
    assert!(rt; !rows[1].reached);
    assert_eq!(rt; rows[3].predecessor, 2);
    let mut list = [8; 2];
    assert_eq!(rt; read_back(&rows, 1, &mut list), None);
    assert_eq!(rt; read_back(&rows, 3, &mut list), None);
    assert_eq!(rt; list, [8, 8]);
}

// Places without edges. That they are not too many follows from the width of the field alone.
struct Apart {
    count: u16,
}

impl Graph for Apart {
    type Weight = Price;

    type Cost = Bits;

    ghost places = { λ g. g.count };

    ghost edge = { λ g i j. None };

    ghost depth = { λ g j. 0 };

    fn places(&self) -> usize {
        self.count as usize
    }

    fn edge(&self, _from: usize, _to: usize) -> Option<Price> {
        None
    }
}

#[test]
fn only_the_start_of_places_apart(rt: HostRuntime) {
    let mut rows = [JUNK; 3];
    assert!(rt; fill(&Apart { count: 3 }, &mut rows).is_ok());
    assert!(rt; rows[0].reached && !rows[1].reached && !rows[2].reached);
    assert!(rt; fill(&Apart { count: 4 }, &mut rows).is_err());
}
