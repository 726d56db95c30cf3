ghost use Rattle.exchange.specs.Decoding.{Decodes};

use super::decoded::Decoded;
use super::failure::Failure;
use outline::Point;
use records::read;

// The kind and the vertices of a record of any kind. Later bytes are ignored.
pub fn decode(bytes: &[u8]) -> Result<Decoded, Failure>
    ensures { Decodes bytes.now result }
{
    let mut points = [Point { col: 0, row: 0 }; 256];
    let reading = read(bytes, &mut points)?;
    Ok(Decoded {
        kind: reading.kind,
        vertices: reading.vertices,
        points,
    })
}
