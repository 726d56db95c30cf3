ghost use Rattle.std.specs.Prelude.{◌≡◌};
ghost use Rattle.records.specs.declared.fault.Fault.TheVariants.{Head};

// What is wrong with the head of a record, and the byte at which it is told.
#[derive(Clone, Copy, PartialEq, Eq, Debug)]
pub enum HeadFault {
    Short = 0,
    Kind = 2,
    Column = 4,
    Row = 6,
}

// What is wrong with a code.
#[derive(Clone, Copy, PartialEq, Eq, Debug)]
pub enum CoderFault {
    NoCode,
    Outside,
}

// What is wrong with the bits after the last code.
#[derive(Clone, Copy, PartialEq, Eq, Debug)]
pub enum BitFault {
    Trailing,
}

// Why a record is refused, and where: the head by its byte, the codes by edge, from 1, and bit, from 0 at the first code bit.
#[derive(Clone, Copy, PartialEq, Eq, Debug)]
pub enum Fault {
    Head(HeadFault),
    Code {
        fault: CoderFault,
        edge: u8,
        bit: usize,
    },
    End {
        fault: BitFault,
        edge: u8,
        bit: usize,
    },
    List,
}

// A fault of the head is passed up as the record's.
impl From<HeadFault> for Fault {
    ghost from_gives = { λ e r. r ≡ Head e };

    fn from(fault: HeadFault) -> Fault {
        Fault::Head(fault)
    }
}
