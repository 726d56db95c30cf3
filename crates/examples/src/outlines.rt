ghost use Rattle.std.specs.Prelude.{◌≡◌};
ghost use Rattle.examples.specs.Answers.{traced};
ghost use Rattle.outline.specs.Plain.{plain};

use outline::Outline;

// The outline that goes by some directions from column 5 of row 5 of a 32 by 32 frame.
pub(crate) fn outline_by(directions: &[u8]) -> Outline
    ensures { (plain result).points ≡ traced directions.now }
{
    let mut outline = Outline::new();
    let _ = outline.open(32, 32, 5, 5);
    for direction in directions {
        let _ = outline.extend(*direction);
    }
    outline
}
