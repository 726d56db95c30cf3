ghost use Rattle.std.specs.Prelude.{◌≡◌, ◌++◌, length, take, drop};
ghost use Rattle.outline.specs.Plain.{plain, new_plain, answer, left_by};
ghost use Rattle.outline.specs.Rules.{Rules};
ghost use Rattle.outline.specs.Runs.{made, after, answers as answers_of};

use super::call::Call;
use super::outline::Outline;
use super::refusal::Refusal;

impl Outline {
    // Makes one call.
    pub fn call(&mut self, call: Call) -> Result<(), Refusal>
        ensures said { result ≡ answer (made (plain self.old) call) }
        ensures after { plain self.new ≡ left_by (plain self.old) (made (plain self.old) call) }
    {
        match call {
            Call::Open {
                width,
                height,
                col,
                row,
            } => self.open(width, height, col, row),
            Call::Extend { direction } => self.extend(direction),
            Call::Retract => self.retract(),
        }
    }

    // Makes the calls one after the other, refused or not, and notes each answer, as long as there is a place for it.
    pub fn run(&mut self, calls: &[Call], answers: &mut [Result<(), Refusal>])
        ensures after { plain self.new ≡ after (plain self.old) (take (length answers.old) calls.now) }
        ensures said { answers.new ≡ answers_of (plain self.old) (take (length answers.old) calls.now) ++ drop (length calls.now) answers.old }
        ensures rules { Rules (plain self.new) }
    {
        let made = calls.len().min(answers.len());
        for (i, call) in calls[..made].iter().enumerate() {
            answers[i] = self.call(*call);
        }
    }

    // A new outline after a list of calls.
    pub fn from_calls(calls: &[Call], answers: &mut [Result<(), Refusal>]) -> Outline
        ensures after { plain result ≡ after new_plain (take (length answers.old) calls.now) }
        ensures said { answers.new ≡ answers_of new_plain (take (length answers.old) calls.now) ++ drop (length calls.now) answers.old }
        ensures rules { Rules (plain result) }
    {
        let mut outline = Outline::new();
        outline.run(calls, answers);
        outline
    }
}
