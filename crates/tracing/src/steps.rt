ghost use Rattle.std.specs.Prelude.{◌≡◌, ℕ, ◌<◌, Some, MatchOption, ◌≢◌};
ghost use Rattle.outline.specs.Moves.{moved};
ghost use Rattle.outline.specs.Plain.{plain};
ghost use Rattle.outline.specs.Rules.{Rules};
ghost use Rattle.tracing.specs.Tracing.{in_largest};

use outline::{LONGEST_SIDE, MOVES, Outline, Point};

// The direction that leads from a point to the next.
fn step(from: Point, to: Point) -> Option<u8>
    ensures { MatchOption result ((d : ℕ) → d < 8 → moved 1024 1024 from d ≢ Some to) (λ d. (d < 8) × (moved 1024 1024 from d ≡ Some to)) }
{
    let direction = MOVES.iter().position(|(cols, rows)| {
        from.displaced(*cols, *rows, LONGEST_SIDE, LONGEST_SIDE) == Some(to)
    })?;
    Some(direction as u8)
}

// The outline with some points in the largest frame, where they are the points of one.
pub fn trace(points: &[Point]) -> Option<Outline>
    ensures { MatchOption result (Rules (in_largest points.now) → ⊥) (λ o. plain o ≡ in_largest points.now) }
{
    let start = points.first()?;
    let mut outline = Outline::new();
    outline
        .open(LONGEST_SIDE, LONGEST_SIDE, start.col, start.row)
        .ok()?;
    for pair in points.windows(2) {
        outline.extend(step(pair[0], pair[1])?).ok()?;
    }
    Some(outline)
}
