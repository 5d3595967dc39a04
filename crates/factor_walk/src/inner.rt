// The letters of a caller's word, which are looked at before any step is read; and the walk along them in a factor's own stretch.
ghost use Rattle.std.specs.Prelude.{◌≡◌, ◌+◌};
ghost use Rattle.factor_walk.specs.Walked.{shown, letters_right, walk_in};

use egg::{GroupElementId, Refusal};

// A length or a position as far as 32 bits can tell: 4,294,967,295 stands for all that is above.
pub fn shown(i: usize) -> u32
    ensures { result ≡ shown i }
{
    if i < 4294967295 { i as u32 } else { 4294967295 }
}

// A letter as a number of 32 bits.
pub fn wide(x: u8) -> u32
    ensures { result ≡ x }
{
    x as u32
}

// Refuses with 14 the first letter that is none of n generators. The start of the walk has position 0, so the letter at i has i + 1.
pub fn letters_right(n: u32, word: &[u8]) -> Result<(), Refusal>
    ensures { result ≡ letters_right n word.now }
{
    for i in 0..word.len() {
        let g = wide(word[i]);
        if n <= g {
            return Err(Refusal::ArgumentOutside(shown(i + 1)));
        }
    }
    Ok(())
}

// Refuses the first letter that is no generator; else walks.
#[tactic(auto, using(egg::proofs::Refusing::handed_on), unfolding(crate::specs::Walked::walk_in))]
pub fn walk_in(
    s: &[u32],
    n: u8,
    count: u32,
    from: GroupElementId,
    word: &[u8],
) -> Result<GroupElementId, Refusal>
    ensures { result ≡ walk_in s.now n count from.0 word.now }
{
    letters_right(n as u32, word)?;
    factor_word_walks::inner::follow(s, n, count, from, word)
}
