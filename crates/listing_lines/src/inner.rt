// Text written into a lent byte buffer: each function stores its bytes from `at` on and answers where the next go.
// What lies past the buffer's end is dropped and still counted, so no caller owes a proof that the text fits it.
ghost use Rattle.std.specs.Prelude.{◌≡◌, ◌+◌, ◌<◌, [], ◌∷◌};
ghost use Rattle.egg.specs.Table.{inverse_of};
ghost use Rattle.listing_lines.specs.Text.{
  Writes,
  EndFits,
  digits,
  decimal,
  spaced,
  steps_text,
  line_text,
  lines_text,
  group_text,
  refused_text,
};

use egg::{GeneratorId, GroupElementId};

// Stores the byte at `at`, where the buffer has that place.
fn put_byte(out: &mut [u8], at: usize, b: u8) -> usize
    requires { EndFits at (b ∷ []) }
    ensures { Writes out.old at (b ∷ []) out.new result }
{
    if at < out.len() {
        out[at] = b;
    }
    at + 1
}

// Stores the bytes of a word.
pub fn write_word(out: &mut [u8], at: usize, word: &[u8]) -> usize
    requires { EndFits at word.now }
    ensures { Writes out.old at word.now out.new result }
{
    let mut next = at;
    for i in 0..word.len() {
        next = put_byte(out, next, word[i]);
    }
    next
}

// The byte of a digit.
fn digit(x: u32) -> u8
    requires { x < 10 }
    ensures { result ≡ 48 + x }
{
    b'0' + (x as u8)
}

// Stores the last k digits of x; no zero leads where k are enough.
fn write_digits(out: &mut [u8], at: usize, k: u8, x: u32) -> usize
    requires { EndFits at (digits k x) }
    ensures { Writes out.old at (digits k x) out.new result }
{
    if k == 0 {
        return at;
    }
    if x < 10 {
        return put_byte(out, at, digit(x));
    }
    let next = write_digits(out, at, k - 1, x / 10);
    put_byte(out, next, digit(x % 10))
}

// Stores a number in decimal: ten digits are enough for 32 bits.
fn write_decimal(out: &mut [u8], at: usize, x: u32) -> usize
    requires { EndFits at (decimal x) }
    ensures { Writes out.old at (decimal x) out.new result }
{
    write_digits(out, at, 10, x)
}

// Stores a space and a number.
fn write_spaced(out: &mut [u8], at: usize, x: u32) -> usize
    requires { EndFits at (spaced x) }
    ensures { Writes out.old at (spaced x) out.new result }
{
    let next = put_byte(out, at, b' ');
    write_decimal(out, next, x)
}

// Stores the successors of e.
fn write_steps(out: &mut [u8], at: usize, t: &[u32], n: u8, e: GroupElementId) -> usize
    requires { EndFits at (steps_text n t.now n e.0 0) }
    ensures { Writes out.old at (steps_text n t.now n e.0 0) out.new result }
{
    let mut next = at;
    for g in 0..n {
        next = write_spaced(out, next, egg::inner::step(t, n, e, GeneratorId(g)).0);
    }
    next
}

// Reads the inverse of e, which the table holds as it is.
fn inverse(t: &[u32], n: u8, e: GroupElementId) -> u32
    ensures { result ≡ inverse_of t.now n e.0 }
{
    egg::inner::get(t, egg::inner::inverse_at(n, e))
}

// Stores one line: "element, inverse, word length, successors".
fn write_line(out: &mut [u8], at: usize, t: &[u32], n: u8, e: GroupElementId) -> usize
    requires { EndFits at (line_text t.now n e.0) }
    ensures { Writes out.old at (line_text t.now n e.0) out.new result }
{
    let a = write_decimal(out, at, e.0);
    let b = write_spaced(out, a, inverse(t, n, e));
    let c = write_spaced(out, b, egg::inner::word_length(t, n, e));
    let d = write_steps(out, c, t, n, e);
    put_byte(out, d, b'\n')
}

// Stores the lines of all elements.
fn write_lines(out: &mut [u8], at: usize, t: &[u32], n: u8, count: u32) -> usize
    requires { EndFits at (lines_text count t.now n 0) }
    ensures { Writes out.old at (lines_text count t.now n 0) out.new result }
{
    let mut next = at;
    for e in 0..count {
        next = write_line(out, next, t, n, GroupElementId(e));
    }
    next
}

// Stores the head, "generators, elements", and the lines.
pub fn write_group(out: &mut [u8], at: usize, t: &[u32], n: u8, count: u32) -> usize
    requires { EndFits at (group_text t.now n count) }
    ensures { Writes out.old at (group_text t.now n count) out.new result }
{
    let a = write_word(out, at, b"group");
    let b = write_spaced(out, a, n as u32);
    let c = write_spaced(out, b, count);
    let d = put_byte(out, c, b'\n');
    write_lines(out, d, t, n, count)
}

// Stores "`refused` and its number".
pub fn write_refused(out: &mut [u8], at: usize, number: u32) -> usize
    requires { EndFits at (refused_text number) }
    ensures { Writes out.old at (refused_text number) out.new result }
{
    let a = write_word(out, at, b"refused");
    let b = write_spaced(out, a, number);
    put_byte(out, b, b'\n')
}
