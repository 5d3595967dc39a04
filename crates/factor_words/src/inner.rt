// The recorded words of a factor's elements: their lengths, and their letters into a lent byte buffer.
ghost use Rattle.std.specs.Prelude.{◌≡◌, ◌≤◌, length};
ghost use Rattle.egg.specs.Table.{pick};
ghost use Rattle.factor_word_letters.specs.Spell.{readable, spell};
ghost use Rattle.factor_words.specs.Words.{length_in, write_in, written_by};

use egg::{GroupElementId, Refusal};

// The recorded length of e's word; refuses 17 where it is over 4,096.
pub fn length_in(s: &[u32], n: u8, e: GroupElementId) -> Result<u32, Refusal>
    ensures { result ≡ length_in s.now n e.0 }
{
    let len = egg::inner::word_length(s, n, e);
    if 4096 < len {
        return Err(Refusal::Unreadable);
    }
    Ok(len)
}

// Writes a short word when all of it has been read, and answers whether it was. Few letters need no long array, which
// would have to be zeroed. The array is lent to nothing but `gather`, so that the compiler knows that the copy's two
// ends are apart.
fn write_short(s: &[u32], n: u8, count: u32, e: GroupElementId, len: u32, out: &mut [u8]) -> bool
    requires { (len ≤ 64) × (len ≤ length out.old) }
    ensures { (result ≡ readable len s.now n count e.0) × (out.new ≡ pick result (spell len s.now n e.0 out.old) out.old) }
{
    let mut held = [0; 68];
    if !factor_word_letters::inner::gather(&s[..], n, count, e, len, &mut held) {
        return false;
    }
    out[..len as usize].copy_from_slice(&held[4..(len as usize) + 4]);
    true
}

// The same for any word.
fn write_long(s: &[u32], n: u8, count: u32, e: GroupElementId, len: u32, out: &mut [u8]) -> bool
    requires { (len ≤ 4096) × (len ≤ length out.old) }
    ensures { (result ≡ readable len s.now n count e.0) × (out.new ≡ pick result (spell len s.now n e.0 out.old) out.old) }
{
    let mut held = [0; 4100];
    if !factor_word_letters::inner::gather(&s[..], n, count, e, len, &mut held) {
        return false;
    }
    out[..len as usize].copy_from_slice(&held[4..(len as usize) + 4]);
    true
}

// Writes the recorded word of e and answers its length. Refuses 17 for a length over 4,096, then 4 for a buffer that is
// shorter, then 17 for a cell of letters that is out of range.
pub fn write_in(
    s: &[u32],
    n: u8,
    count: u32,
    e: GroupElementId,
    out: &mut [u8],
) -> Result<u32, Refusal>
    ensures { (result ≡ write_in s.now n count e.0 (length out.old)) × (out.new ≡ written_by (write_in s.now n count e.0 (length out.old)) s.now n e.0 out.old) }
{
    let letters = egg::inner::word_length(s, n, e);
    if 4096 < letters {
        return Err(Refusal::Unreadable);
    }
    if out.len() < letters as usize {
        return Err(Refusal::TooShort);
    }
    if letters <= 64 {
        if write_short(&s[..], n, count, e, letters, out) {
            return Ok(letters);
        }
        return Err(Refusal::Unreadable);
    }
    if write_long(&s[..], n, count, e, letters, out) {
        return Ok(letters);
    }
    Err(Refusal::Unreadable)
}
