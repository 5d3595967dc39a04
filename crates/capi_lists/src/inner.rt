// Writes the answer of a question over lists as numbers.
ghost use Rattle.std.specs.Prelude.{Err, ◌≡◌};
ghost use Rattle.egg.specs.Factor.{verdict_paper};
ghost use Rattle.egg.specs.Table.{put_at};
ghost use Rattle.capi_values.specs.Bridge.{paper_into};
ghost use Rattle.lists.specs.Lists.{listed_paper};
ghost use Rattle.capi_lists.specs.Told.{listed_into};

use egg::Refusal;
use lists::ListRefusal;

// Writes a verdict to the list's first four numbers and a place to the fifth, and hands the verdict's number back.
fn write_at(told: &mut [u32], v: Result<(), Refusal>, place: usize) -> u32
    ensures { (result ≡ (verdict_paper v).number) × (told.new ≡ put_at (paper_into v told.old) 4 place) }
{
    let number = capi_values::inner::write_verdict(told, v);
    egg::inner::put(told, 4, place);
    number
}

// The same of lists that are refused, or a place of them. It stands apart, so that an answer without a refusal need not be put together in memory.
#[cold]
fn write_refused(told: &mut [u32], why: ListRefusal) -> u32
    ensures { (result ≡ (listed_paper (Err why)).refusal.number) × (told.new ≡ listed_into (Err why) told.old) }
{
    match why {
        ListRefusal::RefusedAt(at) => write_at(told, Err(at.why), at.place),
        ListRefusal::ListsRefused(why) => write_at(told, Err(why), 0),
    }
}

// The same of whatever a question over lists answers; where nothing is refused, all five are 0. In line: called, it would read from memory what its
// caller has just put there piece by piece, and wait for it.
#[inline(always)]
pub fn write_listed(told: &mut [u32], said: Result<(), ListRefusal>) -> u32
    ensures { (result ≡ (listed_paper said).refusal.number) × (told.new ≡ listed_into said told.old) }
{
    match said {
        Ok(()) => write_at(told, Ok(()), 0),
        Err(why) => write_refused(told, why),
    }
}
