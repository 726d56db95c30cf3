// The list of places that leads to a place, read back from its row.
ghost use Rattle.std.specs.Prelude.{◌≡◌, ℕ, ◌^◌, ◌<◌, List, length, MatchOption};
ghost use Rattle.std.specs.List.{slice_get};
ghost use Rattle.graph.specs.Paths.{ReadBack, Listed};
ghost use Rattle.graph.specs.Steps.{previous};

use crate::Row;

// Rows may hold anything: a predecessor that is not lower ends the list.
fn before<C: Copy>(rows: &[Row<C>], at: usize) -> Option<usize>
    ensures { result ≡ previous (slice_get rows.now at) at }
{
    let row = rows.get(at)?;
    let lower = usize::from(row.predecessor);
    (row.reached && lower < at).then_some(lower)
}

// How many places the list read back from a place has.
fn list_length<C: Copy>(rows: &[Row<C>], to: usize) -> Option<usize>
    requires { to < 2 ^ 16 }
    ensures { MatchOption result ((vs : List ℕ) → ReadBack rows.now to vs → ⊥) (λ n. (vs : List ℕ) × ReadBack rows.now to vs × (length vs ≡ n)) }
{
    let mut at = to;
    let mut count: usize = 1;
    while at > 0 {
        at = before(rows, at)?;
        count += 1;
    }
    let start = rows.first()?;
    start.reached.then_some(count)
}

// Writes the list from its end, with a place for each of its numbers.
fn write_back<C: Copy>(rows: &[Row<C>], to: usize, list: &mut [u16])
    requires small { to < 2 ^ 16 }
    requires long { (vs : List ℕ) × ReadBack rows.now to vs × (length vs ≡ length list.old) }
    ensures { ReadBack rows.now to list.new }
{
    let mut at = to;
    for k in (0..list.len()).rev() {
        list[k] = at as u16;
        let row = rows[at];
        at = usize::from(row.predecessor);
    }
}

// Writes the list of places that leads to a place, and answers how many they are.
pub fn read_back<C: Copy>(rows: &[Row<C>], to: usize, list: &mut [u16]) -> Option<usize>
    ensures { Listed rows.now to list.old list.new result }
{
    // A list holds numbers of 16 bits.
    if to >= 65536 {
        return None;
    }
    let count = list_length(rows, to)?;
    if count > list.len() {
        return None;
    }
    write_back(rows, to, &mut list[..count]);
    Some(count)
}
