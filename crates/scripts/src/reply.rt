ghost use Rattle.std.specs.Prelude.{◌≡◌};
ghost use Rattle.scripts.specs.Replies.{told_refusal, vertices_of};
ghost use Rattle.scripts.specs.declared.reply.Reply.TheVariants.{Priced as told_priced, Straying as told_straying};

use measure::Fraction;
use outline::Refusal;
use replay::first_places;

// The vertices of a polygon: the first numbers of a list.
#[derive(Clone, Copy)]
pub struct Vertices {
    pub list: [u16; 256],
    pub count: usize,
}

impl Vertices {
    pub(crate) fn new(list: &[u16], count: usize) -> Vertices
        ensures { result ≡ vertices_of list.now count }
    {
        Vertices {
            list: first_places(list),
            count,
        }
    }
}

// What is answered to a line of a script.
#[derive(Clone, Copy)]
pub enum Reply {
    Accepted,
    Refused {
        number: u8,
    },
    Priced {
        vertices: Vertices,
        bits: u16,
        deviation: Fraction,
    },
    Straying {
        vertices: Vertices,
        deviation: Fraction,
    },
    NoCall {
        line: u64,
    },
}

impl Reply {
    pub(crate) fn refused(refusal: Refusal) -> Reply
        ensures { result ≡ told_refusal refusal }
    {
        Reply::Refused {
            number: refusal.number(),
        }
    }

    pub(crate) fn priced(list: &[u16], count: usize, bits: u16, deviation: Fraction) -> Reply
        ensures { result ≡ told_priced (vertices_of list.now count) bits deviation }
    {
        Reply::Priced {
            vertices: Vertices::new(list, count),
            bits,
            deviation,
        }
    }

    pub(crate) fn straying(list: &[u16], count: usize, deviation: Fraction) -> Reply
        ensures { result ≡ told_straying (vertices_of list.now count) deviation }
    {
        Reply::Straying {
            vertices: Vertices::new(list, count),
            deviation,
        }
    }
}
