use outline::Refusal;
use search::{Found, PricedPolygon, StrayingPolygon};

// What a call answers: open, extend and retract alike, and each search its polygon.
#[derive(Clone, Copy)]
pub enum Answer<C> {
    Traced(Result<(), Refusal>),
    Least(Result<Found<C>, Refusal>),
    Cheapest(Result<PricedPolygon, Refusal>),
    Finest(Result<StrayingPolygon, Refusal>),
    Closest(Result<PricedPolygon, Refusal>),
}
