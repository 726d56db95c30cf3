ghost use Rattle.std.specs.Prelude.{◌≡◌, ℕ, ◌^◌, ◌<◌, ◌≤◌, MatchOption, decimal};
ghost use Rattle.std.proofs.Common.{lit≤};
ghost use Rattle.scripts.specs.Numbers.{Reads, Splits, spaced, four_text};

// An unsigned number of 64 bits or fewer.
pub(crate) trait Unsigned: Copy {
    ghost value: { Self → ℕ };

    ghost limit: { ℕ };

    fn narrow(number: u64) -> Option<Self>
        ensures { MatchOption result (limit ≤ number) (λ n. (value n ≡ number) × (number < limit)) };

    ghost within: { limit ≤ 2 ^ 64 };
}

impl Unsigned for u8 {
    ghost value = { λ n. n };

    ghost limit = { 2 ^ 8 };

    ghost within = { lit≤ tt };

    fn narrow(number: u64) -> Option<u8> {
        number.try_into().ok()
    }
}

impl Unsigned for u16 {
    ghost value = { λ n. n };

    ghost limit = { 2 ^ 16 };

    ghost within = { lit≤ tt };

    fn narrow(number: u64) -> Option<u16> {
        number.try_into().ok()
    }
}

impl Unsigned for u64 {
    ghost value = { λ n. n };

    ghost limit = { 2 ^ 64 };

    ghost within = { lit≤ tt };

    fn narrow(number: u64) -> Option<u64> {
        Some(number)
    }
}

// The number that a text is the decimal of, with no sign and no zero before it.
fn whole(text: &str) -> Option<u64>
    ensures { Reads decimal (λ n. n < 2 ^ 64) text.now result }
{
    // These `parse` would read too.
    if text.starts_with('+') {
        return None;
    }
    if text.len() > 1 && text.starts_with('0') {
        return None;
    }
    text.parse::<u64>().ok()
}

// The number of a width that a text is the decimal of.
pub(crate) fn number<N: Unsigned>(text: &str) -> Option<N>
    ensures { Reads (λ n. decimal (N.value n)) (λ n. N.value n < N.limit) text.now result }
{
    N::narrow(whole(text)?)
}

// The number before the first space of a text, and the text after it.
fn split_number<N: Unsigned>(text: &str) -> Option<(N, &str)>
    ensures { Splits N.value N.limit text.now result }
{
    let (word, rest) = text.split_once(' ')?;
    Some((number(word)?, rest))
}

// Two numbers with a space between.
pub(crate) fn two_numbers(text: &str) -> Option<(u64, u64)>
    ensures { Reads (λ p. spaced p.0 (decimal p.1)) (λ p. (p.0 < 2 ^ 64) × (p.1 < 2 ^ 64)) text.now result }
{
    let (first, rest) = split_number(text)?;
    let second = number(rest)?;
    Some((first, second))
}

// Four numbers with a space between each two.
pub(crate) fn four_numbers(text: &str) -> Option<(u16, u16, u16, u16)>
    ensures { Reads four_text (λ p. (p.0 < 2 ^ 16) × (p.1 < 2 ^ 16) × (p.2 < 2 ^ 16) × (p.3 < 2 ^ 16)) text.now result }
{
    let (first, rest) = split_number(text)?;
    let (second, rest) = split_number(rest)?;
    let (third, rest) = split_number(rest)?;
    let fourth = number(rest)?;
    Some((first, second, third, fourth))
}
