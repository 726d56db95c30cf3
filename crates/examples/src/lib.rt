//! The worked examples: what cheapest and closest answer for a few small outlines.
#![tactic(auto)]

ghost use Rattle.examples.specs.Examples.{Examples};

pub use asking::Shown;
use asking::show;
use closest::Goal;
use coding::Kind;
use measure::{Line, Pace};
use outlines::outline_by;

mod asking;
mod outlines;

// An answer for each worked example.
#[derive(Clone, Copy)]
pub struct Worked {
    pub alone: Shown,
    pub chord: Shown,
    pub legs: Shown,
    pub flat: Shown,
    pub paced: Shown,
    pub over: Shown,
    pub near: Shown,
    pub exact: Shown,
    pub diagonal: Shown,
    pub back: Shown,
    pub long: Shown,
}

// Asks each worked example.
pub fn worked_examples() -> Worked
    ensures { Examples result }
{
    let start = outline_by(&[]);
    let corner = outline_by(&[0, 0, 6, 6]);
    let diagonal = outline_by(&[7]);
    let back = outline_by(&[0, 4]);
    let straight = outline_by(&[0; 16]);
    let exactly = Goal::Tolerance { top: 0, bottom: 1 };
    let within_one = Goal::Tolerance { top: 1, bottom: 1 };
    let within_two = Goal::Tolerance { top: 2, bottom: 1 };
    Worked {
        alone: show(exactly, &start, &Kind::Run, &Line),
        chord: show(within_two, &corner, &Kind::Run, &Line),
        legs: show(within_one, &corner, &Kind::Run, &Line),
        flat: show(within_one, &corner, &Kind::Flat, &Line),
        paced: show(within_two, &corner, &Kind::Run, &Pace),
        over: show(Goal::Budget(5), &corner, &Kind::Run, &Line),
        near: show(Goal::Budget(11), &corner, &Kind::Run, &Line),
        exact: show(Goal::Budget(12), &corner, &Kind::Run, &Line),
        diagonal: show(exactly, &diagonal, &Kind::Axis, &Line),
        back: show(within_one, &back, &Kind::Flat, &Line),
        long: show(exactly, &straight, &Kind::Run, &Line),
    }
}
