// The checks after a reading that ended, in one lent stretch of bytes: the table before `at`, the work from there on. A function whose name ends in
// `_at` is one of the module `checking` on these two parts.
ghost use Rattle.std.specs.Prelude.{◌≡◌, ◌≤◌, ◌/◌, length, get_or, take, drop};
ghost use Rattle.egg.specs.Table.{put_at};
ghost use Rattle.build_checks_inverses.specs.Inverses.{fill_inverses};
ghost use Rattle.build_checks_group.specs.Lefts.{left_of, fill_left, all_go, Lefts, lefts};
ghost use Rattle.build_checks_inverses.specs.Hints.{Hint, Hints, inverse_by};
ghost use Rattle.image_cells.specs.Cells.{cells, halves};
ghost use Rattle.image_check.specs.Short.{short_table, short, SomeWork, judged};

use egg::{GeneratorId, GroupElementId, Refusal};

pub mod checking;

// Stores v in cell i of the work.
fn put_work(b: &mut [u8], at: usize, i: usize, v: usize)
    requires { at ≤ length b.old }
    ensures { (take at b.new ≡ take at b.old) × (cells (drop at b.new) ≡ put_at (cells (drop at b.old)) i v) }
{
    image_cells::inner::put(&mut b[at..], i, v);
}

fn left_at(b: &[u8], at: usize, n: u8, s: GeneratorId, x: GroupElementId) -> GroupElementId
    requires { at ≤ length b.now }
    ensures { result.0 ≡ left_of (cells (take at b.now)) n s.0 (cells (drop at b.now)) x.0 }
{
    checking::left_of(&b[..at], &b[at..], n, s, x)
}

// Writes multiplication on the left by generator s to the start of the work.
fn fill_left(b: &mut [u8], at: usize, n: u8, count: u32, s: GeneratorId)
    requires { at ≤ length b.old }
    ensures { (take at b.new ≡ take at b.old) × (cells (drop at b.new) ≡ fill_left count (cells (take at b.old)) n s.0 (cells (drop at b.old)) 0) }
{
    for x in 0..count {
        let y = left_at(b, at, n, s, GroupElementId(x)).0;
        put_work(b, at, x as usize, y as usize);
    }
}

fn goes_at(b: &[u8], at: usize, n: u8, count: u32) -> Result<(), Refusal>
    requires { at ≤ length b.now }
    ensures { result ≡ all_go (cells (take at b.now)) (cells (drop at b.now)) n count }
{
    checking::all_go(&b[..at], &b[at..], n, count)
}

// Refuses with 12 where a generator on the left does not commute with every step.
fn check12(b: &mut [u8], at: usize, n: u8, count: u32) -> Result<(), Refusal>
    requires { at ≤ length b.old }
    ensures { Lefts.left result (cells (drop at b.new)) ≡ lefts n (cells (take at b.old)) n count (cells (drop at b.old)) 0 }
{
    for s in 0..n {
        fill_left(b, at, n, count, GeneratorId(s));
        goes_at(b, at, n, count)?;
    }
    Ok(())
}

// Stores v in cell i of the table.
fn put_table(b: &mut [u8], at: usize, i: usize, v: usize)
    requires { at ≤ length b.old }
    ensures { (cells (take at b.new) ≡ put_at (cells (take at b.old)) i v) × (drop at b.new ≡ drop at b.old) }
{
    image_cells::inner::put(&mut b[..at], i, v);
}

fn hint_at(b: &[u8], at: usize, n: u8, e: GroupElementId) -> u32
    requires { at ≤ length b.now }
    ensures { Hints (cells (take at b.now)) (cells (drop at b.now)) n e.0 → Hint (cells (take at b.now)) n e.0 result }
{
    checking::hint_of(&b[..at], &b[at..], n, e)
}

// Writes the hints of all elements to the start of the work.
fn fill_hints(b: &mut [u8], at: usize, n: u8, count: u32)
    requires { at ≤ length b.old }
    ensures { (take at b.new ≡ take at b.old) × Hints (cells (take at b.old)) (cells (drop at b.new)) n count }
{
    for e in 0..count {
        let h = hint_at(b, at, n, GroupElementId(e));
        put_work(b, at, e as usize, h as usize);
    }
}

fn inverted_at(b: &[u8], at: usize, n: u8, e: GroupElementId) -> GroupElementId
    requires { at ≤ length b.now }
    ensures { result.0 ≡ inverse_by (cells (take at b.now)) n e.0 (get_or (cells (drop at b.now)) e.0 0) }
{
    checking::inverse_by(&b[..at], &b[at..], n, e)
}

// Writes the inverses of all elements, by the hints in the work.
fn fill_inverses(b: &mut [u8], at: usize, n: u8, count: u32)
    requires { (at ≤ length b.old) × Hints (cells (take at b.old)) (cells (drop at b.old)) n count }
    ensures { cells (take at b.new) ≡ fill_inverses count (cells (take at b.old)) n 0 }
{
    for e in 0..count {
        let x = inverted_at(b, at, n, GroupElementId(e)).0;
        let i = egg::inner::inverse_at(n, GroupElementId(e));
        put_table(b, at, i, x as usize);
    }
}

// Writes the inverses by hints, which are left in the work: 12 does not depend on what it holds.
fn write_inverses(b: &mut [u8], at: usize, n: u8, count: u32)
    requires { at ≤ length b.old }
    ensures { cells (take at b.new) ≡ fill_inverses count (cells (take at b.old)) n 0 }
{
    fill_hints(b, at, n, count);
    fill_inverses(b, at, n, count);
}

// Checks 8 to 11 on the table, and writes its inverses.
fn check_table(b: &mut [u8], at: usize, n: u8, count: u32) -> Result<(), Refusal>
    requires { at ≤ length b.old }
    ensures { Lefts.left result (cells (take at b.new)) ≡ short_table (cells (take at b.old)) n count }
{
    checking::missing(&b[..at], n, count, n)?;
    checking::wrong(&b[..at], n, count)?;
    write_inverses(b, at, n, count);
    checking::inverses_right(&b[..at], n, count)?;
    checking::identity_row(&b[..at], n)
}

// Makes the checks 8 to 12, and hands back the first refusal.
fn check_all(b: &mut [u8], at: usize, n: u8, count: u32) -> Result<(), Refusal>
    requires { at ≤ length b.old }
    ensures { SomeWork (length (cells (drop at b.old))) (λ w. result ≡ short (cells (take at b.old)) w n count) }
{
    check_table(b, at, n, count)?;
    check12(b, at, n, count)
}

// Reads the rows into the table and checks it.
pub fn judge(b: &mut [u8], at: usize, rows: &[u8], n: u8, room: u32) -> Result<(), Refusal>
    requires { at ≤ length b.old }
    ensures { SomeWork (length (cells (drop at b.old))) (λ w. result ≡ judged (at / 4) w (halves rows.now) n room) }
{
    image_cells::inner::clear(&mut b[..at]);
    let k = image_check_reading::inner::placing::read_rows(&mut b[..at], rows, n, room)?;
    if k < room {
        return Err(Refusal::ImageMalformed);
    }
    check_all(b, at, n, room)
}
