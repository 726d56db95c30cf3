ghost use Rattle.std.specs.Prelude.{◌≡◌, ◌-◌, ◌^◌};
ghost use Rattle.std.specs.Option.{option_zip};
ghost use Rattle.exchange.specs.Words.{measure_in, number_in, tolerance_in, budget_in, order_in};

use super::order::Order;
use closest::Goal;
use measure::Chosen;

fn measure_named(word: &str) -> Option<Chosen>
    ensures { result ≡ measure_in word.now }
{
    word.parse().ok()
}

// The number that a word of decimal digits writes, or the largest of the type where it is past that.
fn long_number(word: &str) -> Option<u64>
    ensures { result ≡ number_in (2 ^ 64 - 1) word.now }
{
    let digits = word.as_bytes();
    if digits.is_empty() {
        return None;
    }
    let mut number: u64 = 0;
    for digit in digits {
        if !digit.is_ascii_digit() {
            return None;
        }
        number = number
            .saturating_mul(10)
            .saturating_add((*digit - b'0') as u64);
    }
    Some(number)
}

fn short_number(word: &str) -> Option<u16>
    ensures { result ≡ number_in (2 ^ 16 - 1) word.now }
{
    let number = long_number(word)?;
    Some(u16::try_from(number).unwrap_or(u16::MAX))
}

fn tolerance(top: &str, bottom: &str) -> Option<Goal>
    ensures { result ≡ tolerance_in top.now bottom.now }
{
    let top = long_number(top)?;
    let bottom = long_number(bottom)?;
    Some(Goal::Tolerance { top, bottom })
}

// The number of a kind and the measure that two words ask for. They are read before the words of a goal, so that a long one
// costs nothing where these are wrong.
fn kind_and_measure(kind: &str, measure: &str) -> Option<(u16, Chosen)>
    ensures { result ≡ option_zip (number_in (2 ^ 16 - 1) kind.now) (measure_in measure.now) }
{
    let kind = short_number(kind)?;
    let measure = measure_named(measure)?;
    Some((kind, measure))
}

impl Order {
    // Cheapest within a tolerance.
    pub fn within_tolerance(kind: &str, measure: &str, top: &str, bottom: &str) -> Option<Order>
        ensures { result ≡ order_in kind.now measure.now (tolerance_in top.now bottom.now) }
    {
        let (kind, measure) = kind_and_measure(kind, measure)?;
        let goal = tolerance(top, bottom)?;
        Some(Order {
            kind,
            measure,
            goal,
        })
    }

    // Closest within a budget of bits.
    pub fn within_budget(kind: &str, measure: &str, bits: &str) -> Option<Order>
        ensures { result ≡ order_in kind.now measure.now (budget_in bits.now) }
    {
        let (kind, measure) = kind_and_measure(kind, measure)?;
        let goal = Goal::Budget(short_number(bits)?);
        Some(Order {
            kind,
            measure,
            goal,
        })
    }
}
