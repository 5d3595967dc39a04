// What a build needs to be lent, how it ends, and what it answers.
ghost use Rattle.std.specs.Prelude.{◌≡◌, true};
ghost use Rattle.egg.specs.Factor.{has_room};
ghost use Rattle.build_lending.specs.Finish.{Built, finished};
ghost use Rattle.build_lending.specs.Lending.{table_need, work_need, lent_right, StretchEnd, no_factor, made_of};

use egg::{Factor, Refusal};

// The end of every build, after a reading or an enumeration that left a count or a refusal: checks 8 to 12, and leaves
// the stretches as document 01 wants them. An accepted table gets its words by five letters in a cell.
pub fn finish(
    t: &mut [u32],
    w: &mut [u32],
    n: u8,
    read: Result<u32, Refusal>,
) -> Result<u32, Refusal>
    ensures { Built.built result t.new w.new ≡ finished read n t.old w.old }
{
    match read {
        Err(why) => {
            egg::inner::clear(t);
            egg::inner::clear(w);
            Err(why)
        }
        Ok(count) => match build_checks::inner::check_group(t, w, n, count) {
            Err(why) => {
                egg::inner::clear(t);
                egg::inner::clear(w);
                Err(why)
            }
            Ok(()) => {
                build_word_cells::inner::fill_hops(t, n, count);
                egg::inner::clear(w);
                Ok(count)
            }
        },
    }
}

// How many numbers of table a build needs.
pub fn table_need(n: u8, room: u32) -> usize
    ensures { result ≡ table_need n room }
{
    (room as usize) * egg::inner::width(n)
}

// How many numbers of work a build needs.
pub fn work_need(n: u8, room: u32) -> usize
    ensures { result ≡ work_need n room }
{
    (room as usize) * egg::inner::work_width(n)
}

// True where refusal 4 is not due: the room is within its limits, and neither table nor work is short.
pub fn lent_right(table: usize, start: usize, work: usize, room: u32, n: u8) -> bool
    ensures { result ≡ lent_right table start work room n }
{
    if !egg::has_room(table, start, room, n) {
        return false;
    }
    work_need(n, room) <= work
}

// Where a build's stretch of the table buffer ends, if there is room for it.
pub fn stretch_end(len: usize, start: usize, room: u32, n: u8) -> usize
    requires { has_room len start room n ≡ true }
    ensures { StretchEnd result start (table_need n room) len }
{
    start + table_need(n, room)
}

// A handle that fits no buffer, for the places of a list that hold none.
pub fn no_factor() -> Factor
    ensures { result ≡ no_factor }
{
    Factor {
        start: 0,
        room: 0,
        generators: 0,
        elements: 0,
    }
}

// The answer of a call whose build came to this: the handle of what was built, or the refusal.
pub fn made(start: usize, room: u32, n: u8, count: Result<u32, Refusal>) -> Result<Factor, Refusal>
    ensures { result ≡ made_of start room n count }
{
    let elements = count?;
    Ok(Factor {
        start,
        room,
        generators: n,
        elements,
    })
}
