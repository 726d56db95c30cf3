ghost use Rattle.std.specs.Prelude.{◌≡◌, ℕ, List, ◌++◌, MatchOption, ◌≢◌};
ghost use Rattle.scripts.specs.Words.{word_text};

// What a line begins with, up to its first number.
#[derive(Clone, Copy)]
pub(crate) enum Word {
    Kind,
    MeasureLine,
    MeasurePace,
    Rows,
    List,
    Open,
    Extend,
    Retract,
    LeastPriced,
    LeastStraying,
    Cheapest,
    Finest,
    Closest,
}

const WORDS: [Word; 13] = [
    Word::Kind,
    Word::MeasureLine,
    Word::MeasurePace,
    Word::Rows,
    Word::List,
    Word::Open,
    Word::Extend,
    Word::Retract,
    Word::LeastPriced,
    Word::LeastStraying,
    Word::Cheapest,
    Word::Finest,
    Word::Closest,
];

impl Word {
    // With the space before the first number, if there is one.
    fn text(self) -> &'static str
        ensures { result.now ≡ word_text self }
    {
        match self {
            Word::Kind => "kind ",
            Word::MeasureLine => "measure line",
            Word::MeasurePace => "measure pace",
            Word::Rows => "rows ",
            Word::List => "list ",
            Word::Open => "open ",
            Word::Extend => "extend ",
            Word::Retract => "retract",
            Word::LeastPriced => "least priced ",
            Word::LeastStraying => "least straying",
            Word::Cheapest => "cheapest ",
            Word::Finest => "finest",
            Word::Closest => "closest ",
        }
    }
}

// The word that a line begins with, and the text after it. No word is the beginning of another.
pub(crate) fn split_word(line: &str) -> Option<(Word, &str)>
    ensures { MatchOption result ((w : Word) (rest : List ℕ) → line.now ≢ word_text w ++ rest) (λ p. line.now ≡ word_text p.0 ++ p.1.now) }
{
    for word in WORDS {
        if let Some(rest) = line.strip_prefix(word.text()) {
            return Some((word, rest));
        }
    }
    None
}
