// Turns handles and answers into numbers, for the crates that export the calls as C functions.
ghost use Rattle.std.specs.Prelude.{◌≡◌, Err};
ghost use Rattle.egg.specs.Answers.{answer_of};
ghost use Rattle.egg.specs.Refusals.{refusal_paper};
ghost use Rattle.egg.specs.Factor.{verdict_paper};
ghost use Rattle.capi_values.specs.Bridge.{handle, refusal_code, reached_code, counted_code, letter_of, paper_into, made_into};

use egg::{Factor, GroupElementId, Refusal};

// A refusal's number times 2^32, and its first place.
pub fn refusal_code(r: Refusal) -> u64
    ensures { result ≡ refusal_code r }
{
    let places = r.places();
    (r.number() as u64) * 4294967296 + (places[0] as u64)
}

// The element's number, or the refusal's.
pub fn reached_code(r: Result<GroupElementId, Refusal>) -> u64
    ensures { result ≡ reached_code r }
{
    match r {
        Ok(e) => e.0 as u64,
        Err(why) => refusal_code(why),
    }
}

// The count, or the refusal's number.
pub fn counted_code(r: Result<u32, Refusal>) -> u64
    ensures { result ≡ counted_code r }
{
    match r {
        Ok(k) => k as u64,
        Err(why) => refusal_code(why),
    }
}

// The factor with this handle.
pub fn factor_of(start: usize, room: u32, n: u8, count: u32) -> Factor
    ensures { result ≡ handle start room n count }
{
    Factor {
        start,
        room,
        generators: n,
        elements: count,
    }
}

// Writes a refusal's number and its three places to the list's first four numbers, and hands the number back.
pub fn write_refusal(out: &mut [u32], r: Refusal) -> u32
    ensures { (result ≡ (refusal_paper r).number) × (out.new ≡ paper_into (Err r) out.old) }
{
    let number = r.number();
    let places = r.places();
    egg::inner::put(out, 0, number as usize);
    egg::inner::put(out, 1, places[0] as usize);
    egg::inner::put(out, 2, places[1] as usize);
    egg::inner::put(out, 3, places[2] as usize);
    number
}

// Writes the number and the three places of a verdict to the list's first four numbers, which are 0 where it is fine, and hands the number back.
pub fn write_verdict(out: &mut [u32], v: Result<(), Refusal>) -> u32
    ensures { (result ≡ (verdict_paper v).number) × (out.new ≡ paper_into v out.old) }
{
    match v {
        Err(why) => write_refusal(out, why),
        Ok(()) => {
            egg::inner::put(out, 0, 0);
            egg::inner::put(out, 1, 0);
            egg::inner::put(out, 2, 0);
            egg::inner::put(out, 3, 0);
            0
        }
    }
}

// Writes the verdict, and the element count after it, which is 0 where it is a refusal, and hands the verdict's number back.
pub fn write_made(out: &mut [u32], m: Result<Factor, Refusal>) -> u32
    ensures { (result ≡ (verdict_paper (answer_of m)).number) × (out.new ≡ made_into m out.old) }
{
    match m {
        Err(why) => {
            let number = write_refusal(out, why);
            egg::inner::put(out, 4, 0);
            number
        }
        Ok(f) => {
            let number = write_verdict(out, Ok(()));
            egg::inner::put(out, 4, f.elements as usize);
            number
        }
    }
}

// A byte of the part of a buffer that a call hands back, or 256 and the length of the part from its end on.
pub fn letter_of(part: &[u8], k: usize) -> u64
    ensures { result ≡ letter_of part.now k }
{
    if k < part.len() {
        part[k] as u64
    } else {
        256 + (part.len() as u64)
    }
}
