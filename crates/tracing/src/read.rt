ghost use Rattle.tracing.specs.Tracing.{TracedRight};

use super::steps::trace;
use outline::{Outline, Point};
use records::{Fault, read_chain};

// The outline of a chain record. Later bytes are ignored.
pub fn read_outline(bytes: &[u8]) -> Result<Outline, Fault>
    ensures { TracedRight bytes.now result }
{
    let mut points = [Point { col: 0, row: 0 }; 256];
    let reading = read_chain(bytes, &mut points)?;
    // The vertices of a chain record are the points of an outline.
    let outline = trace(&points[0..reading.vertices]).unwrap();
    Ok(outline)
}
