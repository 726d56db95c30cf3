// The kinds of code, each with its table and its number.
#[derive(Clone, Copy, PartialEq, Eq, Debug)]
pub enum Kind {
    Flat = 1,
    Run,
    Axis,
    Chain,
    RunFlat,
}
