ghost use Rattle.std.specs.Prelude.{Some};
ghost use Rattle.exchange.specs.Texts.{failure_text, decoded_text};

use super::decoded::Decoded;
use super::failure::Failure;
use outline::Refusal;
use records::Fault;
use std::error::Error;
use std::fmt;

impl fmt::Display for Failure {
    ghost output = { λ x. Some (failure_text x) };

    fn fmt<W: fmt::Write>(&self, f: &mut fmt::Formatter<W>) -> fmt::Result {
        let number = Refusal::from(*self).number();
        match *self {
            Failure::Record(Fault::Head(head)) => {
                write!(f, "refused {number} byte {}", head.byte())
            }
            Failure::Record(Fault::Code { edge, bit, .. } | Fault::End { edge, bit, .. }) => {
                write!(f, "refused {number} edge {edge} bit {bit}")
            }
            Failure::Record(Fault::List) | Failure::Refused(_) => write!(f, "refused {number}"),
        }
    }
}

// The text of its Display: a program whose main hands an error on prints this one.
impl fmt::Debug for Failure {
    fn fmt<W: fmt::Write>(&self, f: &mut fmt::Formatter<W>) -> fmt::Result {
        fmt::Display::fmt(self, f)
    }
}

impl Error for Failure {}

impl fmt::Display for Decoded {
    ghost output = { λ d. Some (decoded_text d) };

    fn fmt<W: fmt::Write>(&self, f: &mut fmt::Formatter<W>) -> fmt::Result {
        writeln!(f, "kind {}", self.kind)?;
        // The fields are open, so there may be fewer points than vertices are said.
        let vertices = &self.points[0..self.vertices.min(256)];
        for vertex in vertices {
            writeln!(f, "{} {}", vertex.col, vertex.row)?;
        }
        Ok(())
    }
}
