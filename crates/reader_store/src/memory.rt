// Numbers as words of the road's memory.
ghost use Rattle.std.specs.Prelude.{◌≡◌};
ghost use Rattle.reader_store.specs.Layout.{code_of, one_more, put_at};

use reader_lines::put;

// A code as a word. A number that no word holds becomes the greatest word, which is no code.
#[tactic(auto, unfolding(crate::specs::Layout::code_of))]
pub(crate) fn code(v: u64) -> u16
    ensures { result ≡ code_of v }
{
    u16::try_from(v).unwrap_or(u16::MAX)
}

// One more. A count stops at the greatest word, which no table admits, and never comes round to 0.
#[tactic(auto, unfolding(crate::specs::Layout::one_more))]
pub(crate) fn one_more(n: u16) -> u16
    ensures { result ≡ one_more n }
{
    n.saturating_add(1)
}

// Puts a word at a place, if there is one.
pub(crate) fn put_at(words: &mut [u16], place: Option<usize>, value: u16)
    ensures { words.new ≡ put_at place value words.old }
{
    if let Some(place) = place {
        put(words, place, value);
    }
}
