// The least cost of each place, from the lowest place on.
ghost use Rattle.std.specs.Prelude.{◌≡◌, ◌^◌, ◌<◌, ◌≤◌, length, Some, is_ok};
ghost use Rattle.graph.specs.Rows.{from_row, offer, RowRule, Shallow, Table, Filled};
ghost use Rattle.graph.specs.Steps.{better, Best};

use crate::{Graph, Row};
use cost::Cost;

// There are fewer rows than places.
#[derive(Clone, Copy, PartialEq, Eq, Debug)]
pub struct TooFewRows;

// A cost that a place offers to a higher one.
#[derive(Clone, Copy)]
struct Candidate<C> {
    cost: C,
    from: u16,
}

// The new one only where it is below, so that of equal ones the first stays.
fn better<C: Cost>(best: Option<Candidate<C>>, new: Candidate<C>) -> Candidate<C>
    ensures { result ≡ better C.Cost.cost best new }
{
    match best {
        Some(old) => { if old.cost.above(new.cost) { new } else { old } }
        None => new,
    }
}

// The graph is asked for a weight only where the place that the edge leaves is reached.
fn offered<G: Graph>(graph: &G, row: &Row<G::Cost>, from: usize, to: usize) -> Option<G::Cost>
    ensures { result ≡ from_row G.Cost.Cost.cost (Some row.now) (G.Graph.edge graph.now from to) }
{
    if !row.reached {
        return None;
    }
    let weight = graph.edge(from, to)?;
    Some(row.cost.join(weight))
}

// The lowest place that offers the least to the place after these rows.
fn best<G: Graph>(graph: &G, lower: &[Row<G::Cost>]) -> Option<Candidate<G::Cost>>
    requires place { length lower.now < G.Graph.places graph.now }
    requires few { G.Graph.places graph.now ≤ 2 ^ 16 }
    requires shallow { Shallow (G.Graph.places graph.now) (G.Graph.edge graph.now) (G.Graph.depth graph.now) }
    requires table { Table G.Cost.Cost.cost (G.Graph.edge graph.now) lower.now }
    ensures { Best G.Cost.Cost.cost (λ i. offer G.Cost.Cost.cost (G.Graph.edge graph.now) lower.now i (length lower.now)) (length lower.now) result }
{
    let to = lower.len();
    let mut best: Option<Candidate<G::Cost>> = None;
    for (from, row) in lower.iter().enumerate() {
        if let Some(cost) = offered(graph, row, from, to) {
            let new = Candidate {
                cost,
                from: from as u16,
            };
            best = Some(better(best, new));
        }
    }
    best
}

// The row of the place after these rows.
fn row<G: Graph>(graph: &G, lower: &[Row<G::Cost>]) -> Row<G::Cost>
    requires place { length lower.now < G.Graph.places graph.now }
    requires few { G.Graph.places graph.now ≤ 2 ^ 16 }
    requires shallow { Shallow (G.Graph.places graph.now) (G.Graph.edge graph.now) (G.Graph.depth graph.now) }
    requires table { Table G.Cost.Cost.cost (G.Graph.edge graph.now) lower.now }
    ensures { RowRule G.Cost.Cost.cost (G.Graph.edge graph.now) lower.now (length lower.now) result }
{
    if lower.is_empty() {
        return Row {
            reached: true,
            cost: G::Cost::start(),
            predecessor: 0,
        };
    }
    match best(graph, lower) {
        Some(least) => Row {
            reached: true,
            cost: least.cost,
            predecessor: least.from,
        },
        None => Row::unreached(),
    }
}

// Fills the first rows, one for each place, where there are enough.
pub fn fill<G: Graph>(graph: &G, rows: &mut [Row<G::Cost>]) -> Result<(), TooFewRows>
    ensures { Filled G.Cost.Cost.cost (G.Graph.edge graph.now) (G.Graph.places graph.now) rows.old rows.new (is_ok result) }
{
    let places = graph.places();
    if rows.len() < places {
        return Err(TooFewRows);
    }
    // A row is made from those before it in the same slice.
    for to in 0..places {
        let next = row(graph, &rows[..to]);
        rows[to] = next;
    }
    Ok(())
}
