ghost use Rattle.std.specs.Prelude.{◌≡◌};
ghost use Rattle.replay.specs.Runs.{front, noted};

use crate::answer::Answer;

// What is noted of a call: its answer, and the front of the lent list after it.
#[derive(Clone, Copy)]
pub struct Entry<C> {
    pub answer: Answer<C>,
    pub list: [u16; 256],
}

// The first places of a list, as many as an outline has points at most.
pub fn first_places(list: &[u16]) -> [u16; 256]
    ensures { result ≡ front list.now }
{
    let mut places = [0; 256];
    let count = list.len().min(256);
    places[..count].copy_from_slice(&list[..count]);
    places
}

impl<C: Copy> Entry<C> {
    // Notes the answer to a call, and the list that it leaves.
    pub(crate) fn of(answer: Answer<C>, list: &[u16]) -> Entry<C>
        ensures { result ≡ noted answer list.now }
    {
        Entry {
            answer,
            list: first_places(list),
        }
    }
}
