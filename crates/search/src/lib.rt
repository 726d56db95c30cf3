//! The least polygon of an outline, for every weigher and cost.
#![tactic(auto)]

ghost use Rattle.std.specs.Prelude.{◌≤◌, length};
ghost use Rattle.outline.specs.Plain.{plain};
ghost use Rattle.search.specs.Best.{BestAnswered};
ghost use Rattle.search.specs.Rules.{Answered};

pub use by_price::{PricedPolygon, cheapest};
pub use by_straying::{StrayingPolygon, finest};
use graph::Row;
pub use list::read_list;
use outline::{Outline, Refusal};
pub use rows::{check_room, fill_rows};
use weighing::Weigher;

mod by_price;
mod by_straying;
mod list;
mod rows;
#[cfg(test)]
mod tests;

// A polygon at the front of a list: its number of vertices, and its cost.
#[derive(Clone, Copy)]
pub struct Found<C> {
    pub vertices: usize,
    pub cost: C,
}

// Fills the rows, and writes the least usable polygon to the list.
pub fn least<W: Weigher>(
    weigher: &W,
    outline: &Outline,
    rows: &mut [Row<W::Cost>],
    list: &mut [u16],
) -> Result<Found<W::Cost>, Refusal>
    ensures rule { Answered W.Cost.Cost.cost (W.Weigher.weight weigher.now (plain outline.now).points) (length (plain outline.now).points) rows.old rows.new list.old list.new result }
    ensures best { length (plain outline.now).points ≤ length rows.old → length (plain outline.now).points ≤ length list.old → BestAnswered W.Cost.Cost.cost (W.Weigher.weight weigher.now (plain outline.now).points) (length (plain outline.now).points) list.new result }
{
    check_room(outline, rows.len(), list.len())?;
    fill_rows(weigher, outline, rows)?;
    read_list(outline, rows, list).ok_or(Refusal::NoUsable)
}
