ghost use Rattle.std.specs.Prelude.{◌≡◌};
ghost use Rattle.outline.specs.Refusals.{number as number_of};

// Why a call is refused. The numbers 1 to 10 are for the input, 20 to 28 for the state.
#[derive(Clone, Copy, PartialEq, Eq, Debug)]
pub enum Refusal {
    FrameSize = 1,
    StartOutside = 2,
    Direction = 3,
    Tolerance = 4,
    NoPolygon = 5,
    Short = 6,
    Kind = 7,
    PointOutside = 8,
    NoCode = 9,
    Trailing = 10,
    LeavesFrame = 20,
    Full = 21,
    OnlyStart = 22,
    ListShort = 23,
    RowsShort = 24,
    BufferShort = 25,
    NoUsable = 26,
    OverBudget = 27,
    EdgeNoCode = 28,
}

impl Refusal {
    pub fn number(self) -> u8
        ensures { result ≡ number_of self }
    {
        self as u8
    }
}
