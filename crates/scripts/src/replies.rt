ghost use Rattle.std.specs.Prelude.{◌≡◌, ℕ, List as ListOf};
ghost use Rattle.scripts.specs.Replies.{told_priced, told_straying, replied, reply_of};
ghost use Rattle.scripts.specs.declared.reply.Reply.{Reply as ReplyOf};

use super::reply::Reply;
use cost::bits::Bits;
use cost::two_part::TwoPart;
use outline::Refusal;
use replay::Answer;
use weighing::Deviation;

// A cost of least that a reply can tell.
pub(crate) trait Told: Copy {
    ghost tell: { ListOf ℕ → ℕ → Self → ReplyOf };

    fn tell(self, list: &[u16], vertices: usize) -> Reply
        ensures { result ≡ tell list.now vertices self };
}

impl Told for TwoPart<Bits, Deviation> {
    ghost tell = { told_priced };

    fn tell(self, list: &[u16], vertices: usize) -> Reply {
        Reply::priced(list, vertices, self.first.count, self.second.value)
    }
}

impl Told for Deviation {
    ghost tell = { told_straying };

    fn tell(self, list: &[u16], vertices: usize) -> Reply {
        Reply::straying(list, vertices, self.value)
    }
}

// What is replied to an accepted call, with the list that it left.
pub(crate) fn reply<C: Told>(answer: Answer<C>, list: &[u16]) -> Result<Reply, Refusal>
    ensures { replied result ≡ reply_of C.Told.tell list.now answer }
{
    match answer {
        Answer::Traced(answer) => answer.map(|()| Reply::Accepted),
        Answer::Least(answer) => answer.map(|found| found.cost.tell(list, found.vertices)),
        Answer::Cheapest(answer) | Answer::Closest(answer) => {
            answer.map(|polygon| Reply::priced(
                list,
                polygon.vertices,
                polygon.bits,
                polygon.deviation,
            ))
        }
        Answer::Finest(answer) => {
            answer.map(|polygon| Reply::straying(list, polygon.vertices, polygon.deviation))
        }
    }
}
