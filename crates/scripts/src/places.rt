ghost use Rattle.std.specs.Prelude.{◌≡◌, ◌<◌, ◌≤◌, MatchOption};

// How many places of lent memory a call gets: at most one for each point of a full outline.
#[derive(Clone, Copy)]
pub struct Places {
    count: u16,
    ghost few: { count ≤ 256 },
}

impl Places {
    pub fn new(count: u16) -> Option<Places>
        ensures { MatchOption result (256 < count) (λ p. p.count ≡ count) }
    {
        if count > 256 {
            return None;
        }
        Some(Places { count })
    }

    pub fn all() -> Places
        ensures { result.count ≡ 256 }
    {
        Places { count: 256 }
    }

    pub fn count(self) -> u16
        ensures { result ≡ self.count }
    {
        self.count
    }
}
