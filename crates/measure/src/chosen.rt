ghost use Rattle.measure.specs.Choice.{chosen_strays};
ghost use Rattle.measure.specs.declared.chosen.Chosen.TheVariants.{Line, Pace};
ghost use Rattle.measure.specs.Lawful.{line_answers, pace_answers};
ghost use Rattle.measure.specs.Texts.{measure_name, Named};
ghost use Rattle.std.proofs.Common.{rules};
ghost use Rattle.std.specs.Prelude.{Some};

use super::fraction::Fraction;
use super::line::Line;
use super::meter::Measure;
use super::pace::Pace;
use outline::Outline;
use std::fmt;
use std::str::FromStr;

// One of the two measures, chosen when the program runs.
#[derive(Clone, Copy, PartialEq, Eq, Debug)]
pub enum Chosen {
    Line,
    Pace,
}

// A text that names no measure.
#[derive(Clone, Copy, PartialEq, Eq, Debug)]
pub struct UnknownMeasure;

impl fmt::Display for Chosen {
    ghost output = { λ chosen. Some (measure_name chosen) };

    fn fmt<W: fmt::Write>(&self, f: &mut fmt::Formatter<W>) -> fmt::Result {
        f.write_str(match self {
            Chosen::Line => "line",
            Chosen::Pace => "pace",
        })
    }
}

impl FromStr for Chosen {
    type Err = UnknownMeasure;

    ghost from_str_gives = { Named };

    fn from_str(name: &str) -> Result<Self, UnknownMeasure> {
        match name {
            "line" => Ok(Chosen::Line),
            "pace" => Ok(Chosen::Pace),
            _ => Err(UnknownMeasure),
        }
    }
}

impl Measure for Chosen {
    ghost strays = { chosen_strays };

    ghost answers = { elim [ Line ↦ line_answers | Pace ↦ pace_answers ] };

    ghost none = { Prim.search rules };

    fn strays(&self, outline: &Outline, i: usize, k: usize, j: usize) -> Option<Fraction> {
        match *self {
            Chosen::Line => Line.strays(outline, i, k, j),
            Chosen::Pace => Pace.strays(outline, i, k, j),
        }
    }
}
