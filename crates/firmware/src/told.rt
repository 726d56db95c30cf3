ghost use Rattle.std.specs.Prelude.{◌≡◌};
ghost use Rattle.outline.specs.Refusals.{number};
ghost use Rattle.firmware.specs.Told.{told, placed};

use outline::Refusal;

// Tells C 0, and puts the answer in its place; or minus the number of the refusal.
pub(crate) fn told<T: Copy>(answer: Result<T, Refusal>, place: &mut T) -> i32
    ensures said { result ≡ told number answer }
    ensures held { place.new ≡ placed place.old answer }
{
    match answer {
        Ok(value) => {
            *place = value;
            0
        }
        Err(refusal) => -(refusal.number() as i32),
    }
}
