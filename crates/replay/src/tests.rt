use crate::{Answer, Call, Entry, replay};
use coding::Run;
use cost::bits::Bits;
use cost::two_part::TwoPart;
use graph::Row;
use measure::{Fraction, Line};
use outline::{Outline, Refusal};
use weighing::{Deviation, Straying};

// Two moves right and two down, with a refusal and the searches between.
const CALLS: [Call; 14] = [
    Call::Open {
        width: 32,
        height: 32,
        col: 5,
        row: 5,
    },
    Call::Extend { direction: 0 },
    Call::Extend { direction: 9 },
    Call::Extend { direction: 0 },
    Call::Extend { direction: 6 },
    Call::Extend { direction: 6 },
    Call::Least,
    Call::Cheapest { top: 2, bottom: 1 },
    Call::Cheapest { top: 1, bottom: 0 },
    Call::Finest,
    Call::Closest { budget: 5 },
    Call::Closest { budget: 6 },
    Call::Retract,
    Call::Finest,
];

fn of<T: Drop>(answer: Result<T, Refusal>) -> u8 {
    answer.map_or_else(|refusal| refusal.number(), |_| 0)
}

fn number(answer: Answer<Deviation>) -> u8 {
    match answer {
        Answer::Traced(r) => of(r),
        Answer::Least(r) => of(r),
        Answer::Cheapest(r) => of(r),
        Answer::Finest(r) => of(r),
        Answer::Closest(r) => of(r),
    }
}

#[test]
fn a_corner(rt: HostRuntime) {
    let zero = Deviation {
        value: Fraction::zero(),
    };
    let straying = Row {
        reached: true,
        cost: zero,
        predecessor: 7,
    };
    let priced = Row {
        reached: true,
        cost: TwoPart {
            first: Bits { count: 3 },
            second: zero,
        },
        predecessor: 7,
    };
    let mut entries = [Entry {
        answer: Answer::Traced(Ok(())),
        list: [9; 256],
    }; 14];
    let mut list = [9; 6];
    replay(
        &mut Outline::new(),
        &Straying::new(&Run, &Line),
        &Run,
        &Line,
        &CALLS,
        &mut [straying; 5],
        &mut [priced; 5],
        &mut [straying; 4],
        &mut list,
        &mut entries,
    );
    let numbers = entries.map(|entry| number(entry.answer));
    assert_eq!(rt; numbers, [0, 0, 3, 0, 0, 0, 0, 0, 4, 24, 27, 0, 0, 0]);
    let least = entries[6];
    assert_eq!(rt; least.list[1], 2);
    let cheapest = entries[7];
    assert_eq!(rt; cheapest.list[1], 4);
    assert_eq!(rt; cheapest.list[2], 4);
    assert_eq!(rt; cheapest.list[6], 0);
    assert_eq!(rt; list[5], 9);
}
