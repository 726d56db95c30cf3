ghost use Rattle.std.specs.Prelude.{◌≡◌};
ghost use Rattle.records.specs.Faults.{refusal_of, byte_of};

use super::fault::{BitFault, CoderFault, Fault, HeadFault};
use outline::Refusal;

impl HeadFault {
    // The byte at which the fault is told.
    pub fn byte(self) -> u8
        ensures { result ≡ byte_of self }
    {
        self as u8
    }
}

// The refusal that a fault is, which has its number.
impl From<Fault> for Refusal {
    ghost from_gives = { λ f r. r ≡ refusal_of f };

    fn from(fault: Fault) -> Refusal {
        match fault {
            Fault::Head(HeadFault::Short) => Refusal::Short,
            Fault::Head(HeadFault::Kind) => Refusal::Kind,
            Fault::Head(HeadFault::Column) => Refusal::PointOutside,
            Fault::Head(HeadFault::Row) => Refusal::PointOutside,
            Fault::Code {
                fault: CoderFault::NoCode,
                ..
            } => Refusal::NoCode,
            Fault::Code {
                fault: CoderFault::Outside,
                ..
            } => Refusal::PointOutside,
            Fault::End {
                fault: BitFault::Trailing,
                ..
            } => Refusal::Trailing,
            Fault::List => Refusal::ListShort,
        }
    }
}
