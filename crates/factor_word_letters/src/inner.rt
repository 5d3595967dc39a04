// The letters of a recorded word, five in each number: whether all can be read, and how they get into a lent byte
// buffer or an array of our own.
ghost use Rattle.std.specs.Prelude.{◌≡◌, true, ◌+◌, ◌≤◌, length, drop};
ghost use Rattle.factor_word_letters.specs.Spell.{cell_within, readable, spell_from, spell};
ghost use Rattle.factor_word_letters.specs.Letters.{letters_put};

use egg::GroupElementId;

// Whether a cell of letters is in range as a whole: its five letters are generators, and what stands above them is an element.
// Before a word's first letter an accepted table has zeros there, and where there is a word there is a generator 0.
pub fn cell_within(n: u8, count: u32, c: u32) -> bool
    ensures { result ≡ cell_within n count c }
{
    let m = n as u32;
    if m <= c % 8 {
        return false;
    }
    if m <= c / 8 % 8 {
        return false;
    }
    if m <= c / 8 / 8 % 8 {
        return false;
    }
    if m <= c / 8 / 8 / 8 % 8 {
        return false;
    }
    if m <= c / 8 / 8 / 8 / 8 % 8 {
        return false;
    }
    c / 8 / 8 / 8 / 8 / 8 < count
}

// Whether every cell of the word can be read, so that nothing is written where one cannot.
pub fn readable(s: &[u32], n: u8, count: u32, e: GroupElementId, len: u32) -> bool
    ensures { result ≡ readable len s.now n count e.0 }
{
    let mut at = e.0;
    let mut left = len;
    while 0 < left {
        if count <= at {
            return false;
        }
        let c = egg::inner::hop(s, n, GroupElementId(at));
        if !cell_within(n, count, c) {
            return false;
        }
        if left <= 5 {
            return true;
        }
        at = c / 32768;
        left -= 5;
    }
    true
}

// Writes the letters in a number to their places: `left` letters, but no more than five.
fn put_letters(c: u32, left: u32, start: usize, offset: u32, out: &mut [u8])
    requires { start ≤ 1099511627776 }
    ensures { out.new ≡ letters_put left 5 c start offset out.old }
{
    let mut rest = c;
    let mut word = left;
    for _ in 0..5u32 {
        if word == 0 {
            return;
        }
        word -= 1;
        let letter = (((offset as u64) + ((rest % 8) as u64)) % 256) as u8;
        egg::inner::put_byte(out, start + (word as usize), letter);
        rest /= 8;
    }
}

// Writes the letters of a word to the places from `start` on, each moved up by `offset`.
pub fn spell_from(
    s: &[u32],
    n: u8,
    e: GroupElementId,
    len: u32,
    start: usize,
    offset: u32,
    out: &mut [u8],
)
    requires { start ≤ 1099511627776 }
    ensures { out.new ≡ spell_from len s.now n e.0 start offset out.old }
{
    let mut at = e.0;
    let mut left = len;
    while 0 < left {
        let c = egg::inner::hop(s, n, GroupElementId(at));
        put_letters(c, left, start, offset, out);
        if left <= 5 {
            return;
        }
        at = c / 32768;
        left -= 5;
    }
}

// Writes all five letters of a number to the five places from `place` on.
fn put_five(c: u32, place: usize, held: &mut [u8])
    requires { place + 5 ≤ length held.old }
    ensures { held.new ≡ letters_put 5 5 c place 0 held.old }
{
    held[place + 4] = (c % 8) as u8;
    held[place + 3] = (c / 8 % 8) as u8;
    held[place + 2] = (c / 8 / 8 % 8) as u8;
    held[place + 1] = (c / 8 / 8 / 8 % 8) as u8;
    held[place] = (c / 8 / 8 / 8 / 8 % 8) as u8;
}

// The letters of a word to a list of our own, from the last to the first, and whether each can be read: so one walk is
// enough, and nothing is written where one cannot. The word stands there behind four places, so that the first letters
// need no turn of their own: they are taken by five like the others, and what is before the first goes to these places.
pub fn gather(s: &[u32], n: u8, count: u32, e: GroupElementId, len: u32, held: &mut [u8]) -> bool
    requires { len + 4 ≤ length held.old }
    ensures { (result ≡ readable len s.now n count e.0) × (result ≡ true → drop 4 held.new ≡ spell len s.now n e.0 (drop 4 held.old)) }
{
    let mut at = e.0;
    let mut left = len;
    while 0 < left {
        if count <= at {
            return false;
        }
        let five = egg::inner::hop(s, n, GroupElementId(at));
        if !cell_within(n, count, five) {
            return false;
        }
        put_five(five, (left - 1) as usize, held);
        if left <= 5 {
            return true;
        }
        at = five / 32768;
        left -= 5;
    }
    true
}
