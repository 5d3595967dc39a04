// Quick walks along recorded words by the numbers in the rows. Every cell that is read is proved to be there; each
// number is looked at before it is used, and where one is out of range there is no answer, which is said by 0 or by the
// count.
ghost use Rattle.std.specs.Prelude.{◌≡◌, ℕ, ◌+◌, ◌*◌, ◌-◌, ◌<◌, ◌≤◌, length, get_or, ltb, true};
ghost use Rattle.egg.specs.Table.{start_of, hop_of};
ghost use Rattle.factor_word_letters.specs.Spell.{cell_by};
ghost use Rattle.factor_word_walks.specs.Letters.{LettersBack};
ghost use Rattle.factor_word_walks.specs.Walks.{along, back_along};
ghost use Rattle.factor_quick_walks.specs.Letters.{Onward};

use egg::GroupElementId;

// One of the four numbers behind the steps of a row, by k: 0 the parent, 1 the cell with the last five letters, 2 the
// length, 3 the inverse.
pub fn recorded(s: &[u32], n: u8, count: u32, e: GroupElementId, k: usize) -> u32
    requires { (count * (2 * n + 4) ≤ length s.now) × ((e.0 < count) × (k < 4)) }
    ensures { result ≡ get_or s.now (start_of n e.0 + 2 * n + k) 0 }
{
    egg::inner::read(s, egg::inner::start(n, e) + 2 * (n as usize) + k)
}

// The step from the element that is stored as y, which is one more than its number; with n for `shift` the step back.
// The row is found from y itself, so that it need not wait for the 1 to be taken off. What the letter takes off is
// reckoned in 32 bits, so that the compiler leaves it whole and nothing but one sum waits for the row.
pub fn stored_step(s: &[u32], n: u8, count: u32, shift: u8, y: u32, letter: u32) -> u32
    requires { (count * (2 * n + 4) ≤ length s.now) × ((0 < y) × ((y ≤ count) × ((letter < n) × (shift ≤ n)))) }
    ensures { result ≡ get_or s.now (start_of n (y - 1) + shift + letter) 0 }
{
    let behind = 2 * (n as u32) + 4 - (shift as u32) - letter;
    egg::inner::read(
        s,
        egg::inner::start(n, GroupElementId(y)) - (behind as usize),
    )
}

// Whether the first length is less than the second: the test as a value, by which `chosen` takes one of two numbers
// without a branch.
pub fn fewer(own: u32, len: u32) -> bool
    ensures { result ≡ ltb own len }
{
    own < len
}

// The step by one letter of a cell, the k-th from below, from the element that is stored as y: answers what is stored
// for the element that it leads to, or y again where the word has no more than k letters; 0 where a number is out of
// range. Both are worked out, so that no branch has to guess how long the word is. (Above a short word an accepted
// table has letters 0.)
fn one_letter(s: &[u32], n: u8, count: u32, y: u32, cell: u32, k: u32, letters: u32) -> u32
    requires { (count * (2 * n + 4) ≤ length s.now) × ((0 < y) × ((y ≤ count) × (k < 5))) }
    ensures { 0 < result → Onward s.now n count cell letters (k + 1) y k result }
{
    let letter = (cell >> (3 * k)) % 8;
    if (n as u32) <= letter {
        return 0;
    }
    let x = stored_step(s, n, count, 0, y, letter);
    if x == 0 {
        return 0;
    }
    if count < x {
        return 0;
    }
    egg::inner::chosen(fewer(k, letters), x, y)
}

// The steps by the first two of five letters. In a large group nearly all words that are walked forward have more than
// three letters, in a small one few: so that is a branch.
fn advance_two(s: &[u32], n: u8, count: u32, y: u32, cell: u32, letters: u32) -> u32
    requires { (count * (2 * n + 4) ≤ length s.now) × ((0 < y) × (y ≤ count)) }
    ensures { 0 < result → Onward s.now n count cell letters 5 y 3 result }
{
    if letters <= 3 {
        return y;
    }
    let x = one_letter(s, n, count, y, cell, 4, letters);
    if x == 0 {
        return 0;
    }
    one_letter(s, n, count, x, cell, 3, letters)
}

// From an element along the letters in a cell, the first of them first; the count where a number is out of range, or where the
// cell has something above the word's letters, as in an accepted table it has not. The empty word
// is a branch: who multiplies again and again by the identity, as powers do, need not wait for any row.
pub fn advance(s: &[u32], n: u8, count: u32, from: GroupElementId, cell: u32, letters: u32) -> u32
    requires { (count * (2 * n + 4) ≤ length s.now) × ((from.0 < count) × (letters ≤ 5)) }
    ensures { result < count → (e : ℕ) → e < count → cell ≡ hop_of s.now n e → along letters s.now n count from.0 e ≡ Ok (record { 0 = result }) }
{
    if letters == 0 {
        return from.0;
    }
    if 0 < (cell >> (3 * letters)) {
        return count;
    }
    let x = advance_two(s, n, count, from.0 + 1, cell, letters);
    if x == 0 {
        return count;
    }
    let y = one_letter(s, n, count, x, cell, 2, letters);
    if y == 0 {
        return count;
    }
    let z = one_letter(s, n, count, y, cell, 1, letters);
    if z == 0 {
        return count;
    }
    let last = one_letter(s, n, count, z, cell, 0, letters);
    if last == 0 {
        return count;
    }
    last - 1
}

// From the element that is stored as `from` back along the letters lowest in a cell: what is stored for the element that they
// lead to, or 0 where a number is out of range. What stands above the letters has to be below `limit`.
pub fn retrace_letters(
    s: &[u32],
    n: u8,
    count: u32,
    from: u32,
    cell: u32,
    letters: u32,
    limit: u32,
) -> u32
    requires { (count * (2 * n + 4) ≤ length s.now) × ((0 < from) × (from ≤ count)) }
    ensures { 0 < result → (result ≤ count) × ((cell_by letters n limit cell ≡ true) × LettersBack s.now n count (from - 1) cell letters (Ok (record { 0 = result - 1 }))) }
{
    let mut y = from;
    let mut c = cell;
    let mut left = letters;
    // Counted by hand: every product ends in this loop, and its time was measured in this form.
    while 0 < left {
        let letter = c % 8;
        if (n as u32) <= letter {
            return 0;
        }
        let x = stored_step(s, n, count, n, y, letter);
        if x == 0 {
            return 0;
        }
        if count < x {
            return 0;
        }
        y = x;
        c /= 8;
        left -= 1;
    }
    if limit <= c {
        return 0;
    }
    y
}

// From an element back along a word, five letters for each cell that is read; the count where a number is out of range. Above
// five letters stands an element, and above the word's first letters, in an accepted table, nothing.
pub fn retrace(
    s: &[u32],
    n: u8,
    count: u32,
    from: GroupElementId,
    e: GroupElementId,
    letters: u32,
) -> u32
    requires { (count * (2 * n + 4) ≤ length s.now) × ((from.0 < count) × (e.0 < count)) }
    ensures { result < count → back_along letters s.now n count from.0 e.0 ≡ Ok (record { 0 = result }) }
{
    let mut y = from.0 + 1;
    let mut at = e.0;
    let mut left = letters;
    while 5 < left {
        let c = recorded(s, n, count, GroupElementId(at), 1);
        let x = retrace_letters(s, n, count, y, c, 5, count);
        if x == 0 {
            return count;
        }
        y = x;
        at = c / 32768;
        left -= 5;
    }
    let c = recorded(s, n, count, GroupElementId(at), 1);
    let x = retrace_letters(s, n, count, y, c, left, 1);
    if x == 0 {
        return count;
    }
    x - 1
}
