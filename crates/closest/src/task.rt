use outline::Outline;

// What is asked of closest: a polygon of an outline, by a coder and a measure, within a budget of bits.
#[derive(Drop)]
pub(crate) struct Task<'a, 'o, C, M> {
    pub(crate) outline: &'o Outline,
    pub(crate) coder: &'a C,
    pub(crate) measure: &'a M,
    pub(crate) budget: u16,
}
