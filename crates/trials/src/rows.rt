// The rows of cheapest against every polygon that ends at their points.
use super::asked::{PLACES, ToldRow, priced_row};
use super::edges::Weight;
use super::ratio::Ratio;
use super::tally::Tally;
use super::trial::Trial;

// The row of a point from the lowest one before it that gives it its best weight, where the rows before are right.
fn row_from_lowest(
    trial: &Trial,
    rows: &[ToldRow; PLACES],
    point: usize,
    best: Weight,
) -> Option<ToldRow> {
    let before = rows.iter().zip(&trial.edges).take(point);
    for (predecessor, (row, onward)) in (0u16..).zip(before) {
        let edge = *onward.get(point)?;
        let joined = if row.reached {
            row.weight.joined(edge)
        } else {
            None
        };
        if let Some(weight) = joined.filter(|weight| weight.equals(best)) {
            return Some(ToldRow {
                reached: true,
                weight,
                predecessor,
            });
        }
    }
    None
}

// The row of a point, where those before it are right.
fn row_of(
    trial: &Trial,
    rows: &[ToldRow; PLACES],
    point: usize,
    tolerance: Ratio,
) -> Option<ToldRow> {
    let best = Tally::of(&trial.edges, point).cheapest(tolerance);
    match best {
        Some(best) if point > 0 => row_from_lowest(trial, rows, point, best),
        _ => Some(ToldRow {
            reached: best.is_some(),
            weight: Weight::new(),
            predecessor: 0,
        }),
    }
}

// The rows past the points are as they were.
pub(crate) fn rows_agree(trial: &Trial, rows: &[ToldRow; PLACES], tolerance: Ratio) -> bool {
    rows.iter().enumerate().all(|(point, row)| {
        let right = if point < trial.outline.len() {
            row_of(trial, rows, point, tolerance)
        } else {
            Some(ToldRow::from(priced_row()))
        };
        right == Some(*row)
    })
}
