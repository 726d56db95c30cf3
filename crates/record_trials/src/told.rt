// What reading and writing say, in numbers.
use super::traced::{BLANK, NOWHERE, blank, nowhere};
use outline::{Outline, Refusal};
use records::{Fault, read, record};

// The number of a refusal, with its place where it has one: the byte of the head, or edge and bit.
#[derive(Clone, Copy, PartialEq, Eq, Debug)]
pub enum Told {
    AtByte(u8, u8),
    AtBit(u8, u8, usize),
    Alone(u8),
    // A refusal that changed what was lent, or an answer that changed what lies past it.
    Spoiled,
}

impl From<Fault> for Told {
    fn from(fault: Fault) -> Told {
        let number = Refusal::from(fault).number();
        match fault {
            Fault::Head(head) => Told::AtByte(number, head.byte()),
            Fault::Code { edge, bit, .. } | Fault::End { edge, bit, .. } => {
                Told::AtBit(number, edge, bit)
            }
            Fault::List => Told::Alone(number),
        }
    }
}

// What reading says, with a list of 256 places.
pub(crate) fn reads(bytes: &[u8]) -> Result<(), Told> {
    let mut list = [NOWHERE; 256];
    let answer = read(bytes, &mut list);
    let taken = answer.map_or(0, |reading| reading.vertices);
    if !list.get(taken..).is_some_and(nowhere) {
        return Err(Told::Spoiled);
    }
    answer?;
    Ok(())
}

// What writing into a buffer of some bytes says.
pub(crate) fn writes(outline: &Outline, kind: u16, list: &[u16], room: usize) -> Result<(), Told> {
    let mut buffer = [BLANK; 800];
    let answer = record(outline, kind, list, &mut buffer[..room.min(800)]);
    match answer {
        Ok(_) => Ok(()),
        Err(refusal) if blank(&buffer) => Err(Told::Alone(refusal.number())),
        Err(_) => Err(Told::Spoiled),
    }
}
