ghost use Rattle.listing.specs.Listing.{KindListed, PointsListed, Listed};
ghost use Rattle.outline.specs.Plain.{plain};

use super::line::{Line, Numbers};
use coding::Kind;
use graph::Row;
use measure::Line as ByLine;
use outline::Outline;
use records::Fault;
use search::cheapest;
use tracing::read_outline;

// The line of a kind.
fn kind_line(outline: &Outline, kind: Kind) -> Line
    ensures { KindListed (plain outline.now).points kind result }
{
    let mut rows = [Row::unreached(); 256];
    let mut list = [0; 256];
    // There is a row and a list place for each point, so only 26 is left.
    cheapest(outline, &kind, &ByLine, 2, 1, &mut rows, &mut list)
        .map(|polygon| Numbers {
            kind: u16::from(kind),
            bits: polygon.bits,
            vertices: polygon.vertices,
            top: polygon.deviation.top(),
            bottom: polygon.deviation.bottom(),
        })
        .map_err(|_| kind)
}

fn kind_lines(outline: &Outline) -> [Line; 5]
    ensures { PointsListed (plain outline.now).points result }
{
    [
        kind_line(outline, Kind::Flat),
        kind_line(outline, Kind::Run),
        kind_line(outline, Kind::Axis),
        kind_line(outline, Kind::Chain),
        kind_line(outline, Kind::RunFlat),
    ]
}

// Lists the cheapest polygons of the outline of a chain record, by line, within 2/1.
pub fn list_record(bytes: &[u8]) -> Result<[Line; 5], Fault>
    ensures { Listed bytes.now result }
{
    let outline = read_outline(bytes)?;
    Ok(kind_lines(&outline))
}
