ghost use Rattle.std.specs.Prelude.{◌≡◌};
ghost use Rattle.exchange.specs.Texts.{failure_refusal};
ghost use Rattle.exchange.specs.declared.failure.Failure.TheVariants.{Record as AtRecord, Refused as ByRefusal};

use outline::Refusal;
use records::Fault;

// Why nothing is answered: what is wrong with the record and where, or a refusal without a place.
#[derive(Clone, Copy)]
pub enum Failure {
    Record(Fault),
    Refused(Refusal),
}

impl From<Fault> for Failure {
    ghost from_gives = { λ e r. r ≡ AtRecord e };

    fn from(fault: Fault) -> Failure {
        Failure::Record(fault)
    }
}

impl From<Refusal> for Failure {
    ghost from_gives = { λ e r. r ≡ ByRefusal e };

    fn from(refusal: Refusal) -> Failure {
        Failure::Refused(refusal)
    }
}

impl From<Failure> for Refusal {
    ghost from_gives = { λ failure refusal. refusal ≡ failure_refusal failure };

    fn from(failure: Failure) -> Refusal {
        match failure {
            Failure::Record(fault) => Refusal::from(fault),
            Failure::Refused(refusal) => refusal,
        }
    }
}
