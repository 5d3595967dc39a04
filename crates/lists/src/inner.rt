// What every question over lists does before and after its places.
ghost use Rattle.std.specs.Prelude.{◌≡◌, true, ◌+◌, ◌-◌, ◌≤◌, ◌<◌, length, take, get_or, pos};
ghost use Rattle.lists.specs.Lists.{listed_paper, lengths_right, lists_refused, placed, Answered, answered, left_by, each_place};
ghost use Rattle.lists.specs.Passes.{ChunkEnd};
ghost use Rattle.lists.specs.Worked.{behind_by, PieceOver};

use super::{ListRefusal, RefusedPlace};
use egg::{GroupElementId, Refusal};

// Whether three lists are of one length, and of at most 4,096 places.
#[tactic(auto, using(crate::proofs::Lengths::right_second, crate::proofs::Lengths::right_out, crate::proofs::Lengths::right_long))]
pub fn lengths_right(first: usize, second: usize, out: usize) -> bool
    ensures { result ≡ lengths_right first second out }
{
    if first != second {
        return false;
    }
    if first != out {
        return false;
    }
    first <= 4096
}

// Whether three lists have one place each.
pub fn one_place(first: usize, second: usize, out: usize) -> bool
    ensures { result ≡ true → (first ≡ 1) × ((second ≡ 1) × (out ≡ 1)) }
{
    if first != 1 {
        return false;
    }
    if second != 1 {
        return false;
    }
    out == 1
}

// What lists of different lengths or of too many places answer.
pub fn lists_refused() -> Result<(), ListRefusal>
    ensures { result ≡ lists_refused }
{
    Err(ListRefusal::ListsRefused(Refusal::TooShort))
}

// The single call's answer at a place: its refusal is that of the place.
pub fn at_place(
    place: usize,
    said: Result<GroupElementId, Refusal>,
) -> Result<GroupElementId, ListRefusal>
    ensures { result ≡ placed said place }
{
    match said {
        Ok(e) => Ok(e),
        Err(why) => Err(ListRefusal::RefusedAt(RefusedPlace { place, why })),
    }
}

// The exponent at a place that is known to be there.
pub fn exponent(exponents: &[i32], i: usize) -> i32
    requires { i < length exponents.now }
    ensures { result ≡ get_or exponents.now i (pos 0) }
{
    exponents[i]
}

// Where the chunk that starts at a place ends: lists of our own that are as long as a chunk stay near.
pub fn chunk_end(i: usize, long: usize, most: usize) -> usize
    requires { (i < long) × (0 < most) }
    ensures { ChunkEnd most i long result }
{
    if long - i <= most { long } else { i + most }
}

// In a loop, and not by `copy_from_slice`: of a few numbers a call takes longer.
fn copy_front(from: &[u32], out: &mut [u32])
    requires { length out.old ≤ length from.now }
    ensures { out.new ≡ take (length out.old) from.now }
{
    for i in 0..out.len() {
        out[i] = from[i];
    }
}

// The results go to the caller's list when every place has one, so that a refused call writes nothing.
pub fn hand_over(
    said: Result<(), ListRefusal>,
    results: &[u32],
    out: &mut [u32],
) -> Result<(), ListRefusal>
    requires { length out.old ≤ length results.now }
    ensures { Answered.answered result out.new ≡ answered said (left_by said (take (length out.old) results.now) out.old) }
{
    said?;
    copy_front(results, out);
    Ok(())
}

// The same where the lists have one place, whose single call has been made: no list of our own comes between.
pub fn hand_over_one(
    said: Result<GroupElementId, Refusal>,
    out: &mut [u32],
) -> Result<(), ListRefusal>
    requires { length out.old ≡ 1 }
    ensures { Answered.answered result out.new ≡ each_place 1 (λ i. said) out.old }
{
    let e = at_place(0, said)?;
    out[0] = e.0;
    Ok(())
}

// A refusal that was given for places counted from i.
pub fn behind(i: usize, why: ListRefusal) -> ListRefusal
    requires { i + (listed_paper (Err why)).place ≤ 18446744073709551615 }
    ensures { Err result ≡ behind_by i (Err why) }
{
    match why {
        ListRefusal::RefusedAt(at) => {
            let place = i + at.place;
            ListRefusal::RefusedAt(RefusedPlace { place, why: at.why })
        }
        ListRefusal::ListsRefused(_) => why,
    }
}

// Hands a piece's results over to its places, where what comes after it is fine too.
pub fn hand_over_piece(
    later: Result<(), ListRefusal>,
    piece: &[u32],
    i: usize,
    end: usize,
    out: &mut [u32],
) -> Result<(), ListRefusal>
    requires { (i ≤ end) × ((end ≤ length out.old) × (end - i ≤ length piece.now)) }
    ensures { (result ≡ later) × PieceOver later i end piece.now out.old out.new }
{
    later?;
    copy_front(piece, &mut out[i..end]);
    Ok(())
}
