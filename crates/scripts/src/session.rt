use super::places::Places;
use coding::Kind;
use measure::Chosen;
use outline::Outline;

// An outline, and what finding its polygons uses: a kind of code, a measure, and how much lent memory.
#[derive(Clone, Copy)]
pub struct Session {
    pub(crate) outline: Outline,
    pub(crate) kind: Kind,
    pub(crate) measure: Chosen,
    pub(crate) rows: Places,
    pub(crate) list: Places,
}
