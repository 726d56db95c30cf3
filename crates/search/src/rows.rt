// The rows of an outline's points.
ghost use Rattle.std.specs.Prelude.{◌≡◌, ◌<◌, length, MatchResult};
ghost use Rattle.outline.specs.Plain.{plain};
ghost use Rattle.search.specs.Best.{LeastCost};
ghost use Rattle.search.specs.Rules.{room, RowsFilled};

use graph::{Graph, Row, fill};
use outline::{Outline, Refusal};
use weighing::Weigher;

// The edges of an outline, as a graph of its points.
#[derive(Drop)]
struct Edges<'a, 'b, W> {
    weigher: &'a W,
    outline: &'b Outline,
}

impl<'a, 'b, W: Weigher> Graph for Edges<'a, 'b, W> {
    type Weight = W::Weight;

    type Cost = W::Cost;

    ghost places = { λ g. length (plain g.outline.now).points };

    ghost edge = { λ g i j. W.Weigher.weight g.weigher.now (plain g.outline.now).points i j };

    // A rising list to point j has at most j edges.
    ghost depth = { λ g j. j };

    fn places(&self) -> usize {
        self.outline.len()
    }

    fn edge(&self, from: usize, to: usize) -> Option<W::Weight> {
        self.weigher.weight(self.outline, from, to)
    }
}

// A search wants a row and a list place for each point.
pub fn check_room(outline: &Outline, rows: usize, list: usize) -> Result<(), Refusal>
    ensures { result ≡ room (length (plain outline.now).points) rows list }
{
    if rows < outline.len() {
        return Err(Refusal::RowsShort);
    }
    if list < outline.len() {
        return Err(Refusal::ListShort);
    }
    Ok(())
}

// Fills the rows of the points, and answers the last point's cost, if it is reached.
pub fn fill_rows<W: Weigher>(
    weigher: &W,
    outline: &Outline,
    rows: &mut [Row<W::Cost>],
) -> Result<Option<W::Cost>, Refusal>
    ensures rule { RowsFilled W.Cost.Cost.cost (W.Weigher.weight weigher.now (plain outline.now).points) (length (plain outline.now).points) rows.old rows.new result }
    ensures best { MatchResult result (λ cost. LeastCost W.Cost.Cost.cost (W.Weigher.weight weigher.now (plain outline.now).points) (length (plain outline.now).points) cost) (λ _. length rows.old < length (plain outline.now).points) }
{
    fill(&Edges { weigher, outline }, rows).map_err(|_| Refusal::RowsShort)?;
    let last = rows[outline.len() - 1];
    Ok(last.reached.then_some(last.cost))
}
