// The work of the calls on words, done once the handles are known to fit.
ghost use Rattle.std.specs.Prelude.{◌≡◌, true, length};
ghost use Rattle.group_handles.specs.Handles.{handles, all_fit};
ghost use Rattle.group_words.specs.Words.{lengths, readables, spells, writes, leaves};

use egg::{GroupElementId, Refusal};
use group_handles::Group;

// The recorded lengths of the digits' words, added up.
pub fn lengths(table: &[u32], g: Group, e: GroupElementId) -> Result<u32, Refusal>
    requires { all_fit (length table.now) (handles g) ≡ true }
    ensures { result ≡ lengths table.now (handles g) e.0 }
{
    let c = group_handles::inner::listed(g);
    let mut sum: u32 = 0;
    let mut rest = e.0;
    for f in 0..c {
        let h = g.factors[f];
        let n = h.elements;
        let k = factor_words::inner::length_in(
            egg::inner::part(table, h),
            h.generators,
            GroupElementId(rest % n),
        )?;
        sum += k;
        rest /= n;
    }
    Ok(sum)
}

// Whether every letter can be read, so that nothing is written where one cannot.
fn readables(table: &[u32], g: Group, e: GroupElementId) -> bool
    requires { all_fit (length table.now) (handles g) ≡ true }
    ensures { result ≡ readables table.now (handles g) e.0 }
{
    let c = group_handles::inner::listed(g);
    let mut rest = e.0;
    for f in 0..c {
        let h = g.factors[f];
        let n = h.elements;
        let s = egg::inner::part(table, h);
        let d = GroupElementId(rest % n);
        let len = egg::inner::word_length(s, h.generators, d);
        if !factor_word_letters::inner::readable(s, h.generators, n, d, len) {
            return false;
        }
        rest /= n;
    }
    true
}

// Writes each digit's word after that of the digit before.
fn spells(table: &[u32], g: Group, e: GroupElementId, out: &mut [u8])
    requires { all_fit (length table.now) (handles g) ≡ true }
    ensures { out.new ≡ spells table.now (handles g) e.0 0 0 out.old }
{
    let c = group_handles::inner::listed(g);
    let mut rest = e.0;
    let mut start: usize = 0;
    let mut offset: u32 = 0;
    for f in 0..c {
        let h = g.factors[f];
        let n = h.elements;
        let s = egg::inner::part(table, h);
        let d = GroupElementId(rest % n);
        let len = egg::inner::word_length(s, h.generators, d);
        factor_word_letters::inner::spell_from(s, h.generators, d, len, start, offset, out);
        start += len as usize;
        offset += h.generators as u32;
        rest /= n;
    }
}

// Refuses in this order: 17 for a recorded length over 4,096, 4 for a short buffer, 17 for a cell of letters that is out of range; else writes the word.
pub fn write_in(table: &[u32], g: Group, e: GroupElementId, out: &mut [u8]) -> Result<u32, Refusal>
    requires { all_fit (length table.now) (handles g) ≡ true }
    ensures { (result ≡ writes table.now (handles g) e.0 (length out.old)) × (out.new ≡ leaves (writes table.now (handles g) e.0 (length out.old)) table.now (handles g) e.0 out.old) }
{
    let k = lengths(table, g, e)?;
    if out.len() < (k as usize) {
        return Err(Refusal::TooShort);
    }
    if !readables(table, g, e) {
        return Err(Refusal::Unreadable);
    }
    spells(table, g, e, out);
    Ok(k)
}
