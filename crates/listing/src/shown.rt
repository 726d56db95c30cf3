ghost use Rattle.std.specs.Prelude.{◌≡◌, Some};
ghost use Rattle.listing.specs.Lines.{header_line, numbers_text, refused_line, head_line, code_line, record_line};

use super::line::Numbers;
use coding::Kind;
use records::{CoderFault, Fault, HeadFault};
use std::fmt;

impl fmt::Display for Numbers {
    ghost output = { λ n. Some (numbers_text n) };

    fn fmt<W: fmt::Write>(&self, f: &mut fmt::Formatter<W>) -> fmt::Result {
        let Numbers {
            kind,
            bits,
            vertices,
            top,
            bottom,
        } = *self;
        write!(f, "{kind} {bits} {vertices} {top} {bottom}")
    }
}

// The first line, with the names of the fields.
pub fn header() -> &'static [u8]
    ensures { result.now ≡ header_line }
{
    b"kind bits vertices top bottom\n"
}

// The line of a refused kind.
pub fn kind_refused(kind: Kind) -> &'static [u8]
    ensures { result.now ≡ refused_line kind }
{
    match kind {
        Kind::Flat => b"1 refused 26\n",
        Kind::Run => b"2 refused 26\n",
        Kind::Axis => b"3 refused 26\n",
        Kind::Chain => b"4 refused 26\n",
        Kind::RunFlat => b"5 refused 26\n",
    }
}

fn head_refused(fault: HeadFault) -> &'static [u8]
    ensures { result.now ≡ head_line fault }
{
    match fault {
        HeadFault::Short => b"record refused 6\n",
        HeadFault::Kind => b"record refused 7\n",
        HeadFault::Column => b"record refused 8\n",
        HeadFault::Row => b"record refused 8\n",
    }
}

fn code_refused(fault: CoderFault) -> &'static [u8]
    ensures { result.now ≡ code_line fault }
{
    match fault {
        CoderFault::NoCode => b"record refused 9\n",
        CoderFault::Outside => b"record refused 8\n",
    }
}

// The one line of a refused record.
pub fn record_refused(fault: Fault) -> &'static [u8]
    ensures { result.now ≡ record_line fault }
{
    match fault {
        Fault::Head(fault) => head_refused(fault),
        Fault::Code { fault, .. } => code_refused(fault),
        Fault::End { .. } => b"record refused 10\n",
        Fault::List => b"record refused 23\n",
    }
}
