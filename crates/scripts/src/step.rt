ghost use Rattle.std.specs.Prelude.{◌≡◌};
ghost use Rattle.coding.specs.Kinds.{kind_table};
ghost use Rattle.measure.specs.Choice.{chosen_strays};
ghost use Rattle.measure.specs.Fractions.{fraction};
ghost use Rattle.replay.specs.Right.{tools};
ghost use Rattle.scripts.specs.Sessions.{NewSession, Asked, Answers, KindSet, PricedAsked, LineAnswered, straying_tools};
ghost use Rattle.scripts.specs.Replies.{told_straying, replied};

use super::command::Command;
use super::parse::parse_line;
use super::places::Places;
use super::replies::{Told, reply};
use super::reply::Reply;
use super::session::Session;
use coding::Kind;
use graph::Row;
use measure::Chosen;
use outline::{Outline, Refusal};
use replay::{Call, make_call};
use weighing::{Priced, Straying, Weigher};

fn or_refused(answer: Result<Reply, Refusal>) -> Reply
    ensures { result ≡ replied answer }
{
    answer.unwrap_or_else(|refusal| Reply::refused(refusal))
}

impl Session {
    // A new outline, flat codes, the measure line, and memory for a full outline.
    pub fn new() -> Session
        ensures { NewSession result }
    {
        Session {
            outline: Outline::new(),
            kind: Kind::Flat,
            measure: Chosen::Line,
            rows: Places::all(),
            list: Places::all(),
        }
    }

    fn set_kind(&mut self, number: u16) -> Reply
        ensures { KindSet self.old number result self.new }
    {
        match Kind::try_from(number) {
            Ok(kind) => {
                self.kind = kind;
                Reply::Accepted
            }
            Err(refusal) => Reply::refused(refusal),
        }
    }

    // Makes a call with the session's codes, measure and lent memory, and with a weigher for least.
    fn ask<W: Weigher>(&mut self, weigher: &W, call: Call, own: &mut [Row<W::Cost>; 256]) -> Reply
    where
        W::Cost: Told,
        ensures { Asked (tools W.Cost.Cost.cost (W.Weigher.weight weigher.now) (kind_table self.old.kind) (chosen_strays self.old.measure)) W.Cost.Told.tell self.old call result self.new }
    {
        let rows = usize::from(self.rows.count());
        let mut list = [0; 256];
        let lent = &mut list[..usize::from(self.list.count())];
        let answer = make_call(
            &mut self.outline,
            weigher,
            &self.kind,
            &self.measure,
            call,
            &mut own[..rows],
            &mut [Row::unreached(); 256][..rows],
            &mut [Row::unreached(); 256][..rows],
            lent,
        );
        or_refused(reply(answer, lent))
    }

    // Makes a call; least with the straying weigher.
    fn call(&mut self, call: Call) -> Reply
        ensures { Asked (straying_tools self.old) told_straying self.old call result self.new }
    {
        let (kind, measure) = (self.kind, self.measure);
        self.ask(
            &Straying::new(&kind, &measure),
            call,
            &mut [Row::unreached(); 256],
        )
    }

    // Makes least with the priced weigher.
    fn least_priced(&mut self, top: u64, bottom: u64) -> Reply
        ensures { PricedAsked self.old (fraction top bottom) result self.new }
    {
        let (kind, measure) = (self.kind, self.measure);
        match Priced::new(&kind, &measure, top, bottom) {
            Ok(weigher) => self.ask(&weigher, Call::Least, &mut [Row::unreached(); 256]),
            Err(refusal) => Reply::refused(refusal),
        }
    }

    // Makes one command. A reply is long, and each result that it goes through would copy it.
    pub fn step(&mut self, command: Command) -> Reply
        ensures { Answers self.old command result self.new }
    {
        match command {
            Command::Kind { number } => self.set_kind(number),
            Command::Measure { chosen } => {
                self.measure = chosen;
                Reply::Accepted
            }
            Command::Rows { places } => {
                self.rows = places;
                Reply::Accepted
            }
            Command::List { places } => {
                self.list = places;
                Reply::Accepted
            }
            Command::Open {
                width,
                height,
                col,
                row,
            } => self.call(Call::Open {
                width,
                height,
                col,
                row,
            }),
            Command::Extend { direction } => self.call(Call::Extend { direction }),
            Command::Retract => self.call(Call::Retract),
            Command::LeastPriced { top, bottom } => self.least_priced(top, bottom),
            Command::LeastStraying => self.call(Call::Least),
            Command::Cheapest { top, bottom } => self.call(Call::Cheapest { top, bottom }),
            Command::Finest => self.call(Call::Finest),
            Command::Closest { budget } => self.call(Call::Closest { budget }),
        }
    }

    // Answers a line of a script, of which it is told the number.
    pub fn answer(&mut self, number: u64, line: &[u8]) -> Reply
        ensures { LineAnswered self.old number line.now result self.new }
    {
        match parse_line(line) {
            Some(command) => self.step(command),
            None => Reply::NoCall { line: number },
        }
    }
}
