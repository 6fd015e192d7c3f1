// Trees of entries by content: which entries make a tree that the reader accepts, and how many octets their message has.
#![tactic(auto)]

ghost use Rattle.std.specs.Prelude.{◌≡◌};
ghost use Rattle.glow_trees.specs.Legal.{is_root};

use glow_grammar::collections;

// Whether a number is Root's kind: elements or streams.
pub fn is_root(root: u64) -> bool
    ensures { result ≡ is_root root }
{
    if root == collections::ROOT_ELEMENTS {
        return true;
    }
    root == collections::STREAMS
}
