// A supervisor's state as two words, and back.
ghost use Rattle.std.specs.Prelude.{◌≡◌, true, false, ◌<◌, ◌≤◌, MatchOption, length};
ghost use Rattle.supervision_c.specs.Words.{words_of, link_at, is_link};

use supervision::Link;

// A word as a tick, which has 32 bits.
fn tick_in(tick: u64) -> Option<u32>
    ensures { MatchOption result (4294967296 ≤ tick) (λ t. t ≡ tick) }
{
    u32::try_from(tick).ok()
}

// The state that the words are, if they are one's.
#[tactic(auto, unfolding(crate::specs::Words::is_link, crate::specs::Words::is_pair, crate::specs::Words::link_from))]
pub(crate) fn link_in(words: &[u64]) -> Option<Link>
    ensures { MatchOption result (is_link words.now ≡ false) (λ l. (is_link words.now ≡ true) × (l ≡ link_at words.now)) }
{
    match words {
        [0, tick] => Some(Link::Silent {
            since: tick_in(*tick)?,
        }),
        [1, tick] => Some(Link::Asked {
            since: tick_in(*tick)?,
        }),
        [2, 0] => Some(Link::Dead),
        _ => None,
    }
}

pub(crate) fn put_link(words: &mut [u64], link: Link)
    requires { length words.old ≡ 2 }
    ensures { words.new ≡ words_of link }
{
    let (place, tick) = match link {
        Link::Silent { since } => (0, u64::from(since)),
        Link::Asked { since } => (1, u64::from(since)),
        Link::Dead => (2, 0),
    };
    // One by one: by `copy_from_slice` a showing took a third longer.
    words[0] = place;
    words[1] = tick;
}
