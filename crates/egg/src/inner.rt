// The cells of a table, for the layers above. The row of element e starts at e * (2n + 4): n successors, n
// predecessors, parent, last generator, word length, inverse. A successor or predecessor is stored as its number + 1,
// and 0 is "not known", so that a row never used is zero. In an accepted table the cell of the last generator also
// holds the letters before it (`build_word_cells`). Reads and writes are total: a read past the end is 0 and a write
// there does nothing, so that no caller owes a proof of an index. Only `read` is for a place that is known to be there.
// `byte` and `put_byte` are the same for lent bytes.
ghost use Rattle.std.specs.Prelude.{◌≡◌, true, ◌+◌, ◌*◌, ◌<◌, ◌-◌, length, get_or, set, replicate};
ghost use Rattle.egg.specs.Table.{pick, put_at, start_of, succ_at, pred_at, hop_of, last_of, step_of, work_of, Place};
ghost use Rattle.egg.specs.Pairs.{pair_code, pair_count};
ghost use Rattle.egg.specs.Factor.{fits_in, stretch, read_step};

use super::{Factor, GeneratorId, GroupElementId, Refusal};

// What stands at i, and 0 past the end.
pub fn get(s: &[u32], i: usize) -> u32
    ensures { result ≡ get_or s.now i 0 }
{
    if i < s.len() { s[i] } else { 0 }
}

// What stands at a place that is known to be there, with no test.
pub fn read(s: &[u32], i: usize) -> u32
    requires { i < length s.now }
    ensures { result ≡ get_or s.now i 0 }
{
    s[i]
}

// The byte at i, and 0 past the end.
pub fn byte(s: &[u8], i: usize) -> u8
    ensures { result ≡ get_or s.now i 0 }
{
    if i < s.len() { s[i] } else { 0 }
}

// The first number or the second, both worked out beforehand: without a branch, which a processor would guess wrong
// every other time.
pub fn chosen(first: bool, x: u32, y: u32) -> u32
    ensures { result ≡ pick first x y }
{
    if first { x } else { y }
}

// Stores v at i; does nothing past the end, or where v has more than 32 bits.
pub fn put(s: &mut [u32], i: usize, v: usize)
    ensures { s.new ≡ put_at s.old i v }
{
    if i < s.len() {
        if v < 4294967296 {
            s[i] = v as u32;
        }
    }
}

// Stores a byte at i; does nothing past the end.
pub fn put_byte(out: &mut [u8], i: usize, v: u8)
    ensures { out.new ≡ set out.old i v }
{
    if i < out.len() {
        out[i] = v;
    }
}

// Fills a buffer with zeros.
pub fn clear(s: &mut [u32])
    ensures { s.new ≡ replicate (length s.old) 0 }
{
    s.fill(0);
}

// How many numbers the row of an element has.
pub fn width(n: u8) -> usize
    ensures { result ≡ 2 * n + 4 }
{
    2 * (n as usize) + 4
}

// How many numbers of work a build needs for each element.
pub fn work_width(n: u8) -> usize
    ensures { Place result (work_of n) 524288 }
{
    let m = n as usize;
    6 * m * m + 4 * m
}

// Where the row of an element starts.
pub fn start(n: u8, e: GroupElementId) -> usize
    ensures { Place result (start_of n e.0) 4503599627370496 }
{
    let x = e.0;
    (x as usize) * width(n)
}

// Where the successor of e by g stands.
pub fn successor_at(n: u8, e: GroupElementId, g: GeneratorId) -> usize
    ensures { Place result (succ_at n e g) 9007199254740992 }
{
    let k = g.0;
    start(n, e) + (k as usize)
}

// Where the predecessor of e by g stands.
pub fn predecessor_at(n: u8, e: GroupElementId, g: GeneratorId) -> usize
    ensures { Place result (pred_at n e g) 9007199254740992 }
{
    let k = g.0;
    start(n, e) + (n as usize) + (k as usize)
}

// The number of the row of e that stands k places after `shift`.
pub fn cell(t: &[u32], n: u8, e: GroupElementId, shift: u8, k: u32) -> u32
    ensures { result ≡ get_or t.now (start_of n e.0 + shift + k) 0 }
{
    get(t, start(n, e) + (shift as usize) + (k as usize))
}

// The element that a stored step means, in a table with nothing missing: "not known" counts as the identity.
pub fn element(x: u32) -> GroupElementId
    ensures { result.0 ≡ x - 1 }
{
    if x == 0 {
        GroupElementId(0)
    } else {
        GroupElementId(x - 1)
    }
}

// The step from e by g in a table with nothing missing: "not known" counts as the identity.
pub fn step(t: &[u32], n: u8, e: GroupElementId, g: GeneratorId) -> GroupElementId
    ensures { result.0 ≡ step_of t.now n e.0 g.0 }
{
    let k = g.0;
    element(get(t, start(n, e) + (k as usize)))
}

// The parent of e.
pub fn parent(t: &[u32], n: u8, e: GroupElementId) -> u32
    ensures { result ≡ get_or t.now (start_of n e.0 + 2 * n) 0 }
{
    get(t, start(n, e) + 2 * (n as usize))
}

// Where the cell of e's last generator stands. In an accepted table it holds the last five letters of e's word and the
// element before them (`build_word_cells`); the names say "hop" for that number.
pub fn hop_at(n: u8, e: GroupElementId) -> usize
    ensures { Place result (start_of n e.0 + 2 * n + 1) 9007199254740992 }
{
    start(n, e) + 2 * (n as usize) + 1
}

// The whole number in that cell.
pub fn hop(t: &[u32], n: u8, e: GroupElementId) -> u32
    ensures { result ≡ hop_of t.now n e.0 }
{
    get(t, hop_at(n, e))
}

// The last letter of the word of e, which has the three lowest bits of that cell.
pub fn last(t: &[u32], n: u8, e: GroupElementId) -> u32
    ensures { result ≡ last_of t.now n e.0 }
{
    hop(t, n, e) % 8
}

// The step from x by the last letter of the word of e. The letter is a number as it was stored, and need not be a
// generator's, so it is taken as a number and not as a `GeneratorId`.
pub fn step_last(t: &[u32], n: u8, x: GroupElementId, e: GroupElementId) -> GroupElementId
    ensures { result.0 ≡ step_of t.now n x.0 (last_of t.now n e.0) }
{
    element(get(t, start(n, x) + (last(t, n, e) as usize)))
}

// The length of the recorded word of e.
pub fn word_length(t: &[u32], n: u8, e: GroupElementId) -> u32
    ensures { result ≡ get_or t.now (start_of n e.0 + 2 * n + 2) 0 }
{
    get(t, start(n, e) + 2 * (n as usize) + 2)
}

// Where the inverse of e stands.
pub fn inverse_at(n: u8, e: GroupElementId) -> usize
    ensures { Place result (start_of n e.0 + 2 * n + 3) 9007199254740992 }
{
    start(n, e) + 2 * (n as usize) + 3
}

// The one read that every question is built on: the step in the stretch of a factor, or 17 where the number read is out
// of range.
pub fn next(
    s: &[u32],
    n: u8,
    count: u32,
    e: GroupElementId,
    g: GeneratorId,
) -> Result<GroupElementId, Refusal>
    ensures { result ≡ read_step s.now n count e.0 g.0 }
{
    let x = get(s, successor_at(n, e, g));
    if x == 0 {
        return Err(Refusal::Unreadable);
    }
    if count < x {
        return Err(Refusal::Unreadable);
    }
    Ok(GroupElementId(x - 1))
}

// The stretch of the table buffer that belongs to a factor whose handle fits.
pub fn part(table: &[u32], f: Factor) -> &[u32]
    requires { fits_in (length table.now) f ≡ true }
    ensures { result.now ≡ stretch table.now f }
{
    let a = f.start;
    let b = a + (f.room as usize) * width(f.generators);
    &table[a..b]
}

// The pairs (a, b) in the order (0,1),(0,2),(1,2),(0,3).., each as 8a + b.
const PAIRS: [u32; 28] = [
    1, 2, 10, 3, 11, 19, 4, 12, 20, 28, 5, 13, 21, 29, 37, 6, 14, 22, 30, 38, 46, 7, 15, 23, 31,
    39, 47, 55,
];

// The pair at place k of that order.
pub fn pair_code(k: usize) -> u32
    requires { k < 28 }
    ensures { result ≡ pair_code k }
{
    PAIRS[k]
}

// How many pairs n generators have: n(n-1)/2.
pub fn pair_count(n: u8) -> u32
    ensures { result ≡ pair_count n }
{
    if n == 0 {
        return 0;
    }
    (n as u32) * ((n as u32) - 1) / 2
}
