// Walks through a factor's own stretch along the letters of recorded words; every number is looked at before it is
// used, and 17 is the answer where one is out of range.
ghost use Rattle.std.specs.Prelude.{◌≡◌, ◌≤◌};
ghost use Rattle.factor_word_walks.specs.Walks.{follow, along, read_step_back, back_along};
ghost use Rattle.factor_word_walks.specs.Letters.{LettersBack};

use egg::{GeneratorId, GroupElementId, Refusal};

// From an element along the letters of a word.
pub fn follow(
    s: &[u32],
    n: u8,
    count: u32,
    from: GroupElementId,
    word: &[u8],
) -> Result<GroupElementId, Refusal>
    ensures { result ≡ follow s.now n count from.0 word.now }
{
    let mut x = from;
    for i in 0..word.len() {
        x = egg::inner::next(s, n, count, x, GeneratorId(word[i]))?;
    }
    Ok(x)
}

// A word's letters stand in the table from the last to the first, and are walked from the first to the last: they are gathered in
// a list of our own, so that the stack does not grow with the word. Few letters need no long list, which would have to be zeroed.
fn along_short(
    s: &[u32],
    n: u8,
    count: u32,
    from: GroupElementId,
    e: GroupElementId,
    len: u32,
) -> Result<GroupElementId, Refusal>
    requires { len ≤ 64 }
    ensures { result ≡ along len s.now n count from.0 e.0 }
{
    let mut held = [0; 68];
    if !factor_word_letters::inner::gather(&s[..], n, count, e, len, &mut held) {
        return Err(Refusal::Unreadable);
    }
    follow(&s[..], n, count, from, &held[4..(len as usize) + 4])
}

fn along_long(
    s: &[u32],
    n: u8,
    count: u32,
    from: GroupElementId,
    e: GroupElementId,
    len: u32,
) -> Result<GroupElementId, Refusal>
    requires { len ≤ 4096 }
    ensures { result ≡ along len s.now n count from.0 e.0 }
{
    let mut held = [0; 4100];
    if !factor_word_letters::inner::gather(&s[..], n, count, e, len, &mut held) {
        return Err(Refusal::Unreadable);
    }
    follow(&s[..], n, count, from, &held[4..(len as usize) + 4])
}

// From an element along the last `len` letters of the word that ends at e.
pub fn along(
    s: &[u32],
    n: u8,
    count: u32,
    from: GroupElementId,
    e: GroupElementId,
    len: u32,
) -> Result<GroupElementId, Refusal>
    requires { len ≤ 4096 }
    ensures { result ≡ along len s.now n count from.0 e.0 }
{
    if len <= 64 {
        return along_short(&s[..], n, count, from, e, len);
    }
    along_long(&s[..], n, count, from, e, len)
}

// The step back in the stretch of a factor, or 17 where the number read is out of range.
fn previous(
    s: &[u32],
    n: u8,
    count: u32,
    e: GroupElementId,
    g: GeneratorId,
) -> Result<GroupElementId, Refusal>
    ensures { result ≡ read_step_back s.now n count e.0 g.0 }
{
    let x = egg::inner::get(s, egg::inner::predecessor_at(n, e, g));
    if x == 0 {
        return Err(Refusal::Unreadable);
    }
    if count < x {
        return Err(Refusal::Unreadable);
    }
    Ok(GroupElementId(x - 1))
}

// From an element back along the letters that are lowest in a cell that has been tested, the last letter first.
fn letters_back(
    s: &[u32],
    n: u8,
    count: u32,
    from: GroupElementId,
    cell: u32,
    letters: u32,
) -> Result<GroupElementId, Refusal>
    ensures { LettersBack s.now n count from.0 cell letters result }
{
    let mut x = from;
    let mut c = cell;
    for _ in 0..letters {
        let letter = c % 8;
        x = previous(s, n, count, x, GeneratorId(letter as u8))?;
        c /= 8;
    }
    Ok(x)
}

// Walks from an element back along the last `letters` letters of the word that ends at e, five for each row that is
// read. (`&s[..]` is passed on, and not `s`: a slice that is itself passed on is copied at the start of its function,
// and a call would wait there for the one before it.)
pub fn back_along(
    s: &[u32],
    n: u8,
    count: u32,
    from: GroupElementId,
    e: GroupElementId,
    letters: u32,
) -> Result<GroupElementId, Refusal>
    ensures { result ≡ back_along letters s.now n count from.0 e.0 }
{
    let mut x = from;
    let mut at = e.0;
    let mut left = letters;
    while 5 < left {
        if count <= at {
            return Err(Refusal::Unreadable);
        }
        let c = egg::inner::hop(s, n, GroupElementId(at));
        if !factor_word_letters::inner::cell_within(n, count, c) {
            return Err(Refusal::Unreadable);
        }
        x = letters_back(&s[..], n, count, x, c, 5)?;
        at = c / 32768;
        left -= 5;
    }
    if left == 0 {
        return Ok(x);
    }
    if count <= at {
        return Err(Refusal::Unreadable);
    }
    let c = egg::inner::hop(s, n, GroupElementId(at));
    if !factor_word_letters::inner::cell_within(n, count, c) {
        return Err(Refusal::Unreadable);
    }
    letters_back(&s[..], n, count, x, c, left)
}
