ghost use Rattle.firmware.specs.Told.{ReadTold};

use super::told::told;
use outline::{Point, Refusal};
use records::{Reading, read};

// The kind and the vertices of a record of any kind.
pub fn polygon_read(bytes: &[u8], list: &mut [Point], reading: &mut Reading) -> i32
    ensures { ReadTold bytes.now list.old list.new reading.old reading.new result }
{
    told(
        read(bytes, list).map_err(|fault| Refusal::from(fault)),
        reading,
    )
}
