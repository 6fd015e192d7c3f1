// A desk's figures as seven words, and back.
#![tactic(auto)]

ghost use Rattle.std.specs.Prelude.{◌≡◌};
ghost use Rattle.desk_words.specs.Words.{limit_at, figures_at, is_limit, is_figures, words_in};

use desk_crosspoints::Figures;

fn limit_at(given: u64, n: u64) -> Option<u64>
    ensures { result ≡ limit_at given n }
{
    (given != 0).then_some(n)
}

fn is_limit(given: u64, n: u64) -> bool
    ensures { result ≡ is_limit given n }
{
    if given == 0 {
        return n == 0;
    }
    given == 1
}

// Whether the words are a desk's figures.
pub fn is_figures(words: &[u64]) -> bool
    ensures { result ≡ is_figures words.now }
{
    if words.len() != 7 {
        return false;
    }
    is_limit(words[3], words[4]) && is_limit(words[5], words[6])
}

// The figures that the words are.
pub fn figures_at(words: &[u64]) -> Figures
    ensures { result ≡ figures_at words.now }
{
    Figures {
        kind: framing_words::word_at(words, 0),
        targets: framing_words::word_at(words, 1),
        sources: framing_words::word_at(words, 2),
        total: limit_at(
            framing_words::word_at(words, 3),
            framing_words::word_at(words, 4),
        ),
        each: limit_at(
            framing_words::word_at(words, 5),
            framing_words::word_at(words, 6),
        ),
    }
}

// The figures into seven words that are lent; another count stays as it was.
pub fn put_figures(words: &mut [u64], f: Figures)
    ensures { words_in words.old f ≡ words.new }
{
    if words.len() != 7 {
        return;
    }
    let total = f.total;
    let each = f.each;
    words.copy_from_slice(&[
        f.kind,
        f.targets,
        f.sources,
        u64::from(total.is_some()),
        total.unwrap_or(0),
        u64::from(each.is_some()),
        each.unwrap_or(0),
    ]);
}
