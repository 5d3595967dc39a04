// Stores an image's bytes, from a factor's stretch.
ghost use Rattle.std.specs.Prelude.{◌≡◌, ◌+◌, ◌≤◌};
ghost use Rattle.egg.specs.Table.{step_of};
ghost use Rattle.egg.specs.Factor.{read_step};
ghost use Rattle.image_writing.specs.Written.{step_read, known_row, all_known, put_half, put_row, put_rows, put_head};

use egg::{GeneratorId, GroupElementId, Refusal};

// Refuses with 17 a stored step that is missing or leads beyond the elements.
fn known(s: &[u32], n: u8, count: u32, e: GroupElementId, g: GeneratorId) -> Result<(), Refusal>
    ensures { result ≡ step_read (read_step s.now n count e.0 g.0) }
{
    egg::inner::next(s, n, count, e, g)?;
    Ok(())
}

// Refuses with 17 the first such step of one row.
fn known_row(s: &[u32], n: u8, count: u32, e: GroupElementId) -> Result<(), Refusal>
    ensures { result ≡ known_row s.now n count e.0 }
{
    for g in 0..n {
        known(s, n, count, e, GeneratorId(g))?;
    }
    Ok(())
}

// Refuses with 17 the first such step of the table, so that nothing is written where there is one.
pub fn all_known(s: &[u32], n: u8, count: u32) -> Result<(), Refusal>
    ensures { result ≡ all_known s.now n count }
{
    for e in 0..count {
        known_row(s, n, count, GroupElementId(e))?;
    }
    Ok(())
}

// Stores a number in two bytes from place `at` on, the highest first.
fn put_half(out: &mut [u8], at: usize, v: u32)
    requires { at + 1 ≤ 1099511627776 }
    ensures { out.new ≡ put_half out.old at v }
{
    egg::inner::put_byte(out, at, (v / 256 % 256) as u8);
    egg::inner::put_byte(out, at + 1, (v % 256) as u8);
}

fn put_row(out: &mut [u8], s: &[u32], n: u8, e: GroupElementId)
    requires { e.0 ≤ 65535 }
    ensures { out.new ≡ put_row n (step_of s.now n) n e.0 0 out.old }
{
    for g in 0..n {
        let at = 8 + 2 * ((e.0 as usize) * (n as usize) + (g as usize));
        put_half(out, at, egg::inner::step(s, n, e, GeneratorId(g)).0);
    }
}

pub fn put_rows(out: &mut [u8], s: &[u32], n: u8, count: u32)
    requires { count ≤ 65535 }
    ensures { out.new ≡ put_rows count (step_of s.now n) n 0 out.old }
{
    for e in 0..count {
        put_row(out, s, n, GroupElementId(e));
    }
}

// Stores the head: the length of what follows, version 1, the generators and the elements.
pub fn put_head(out: &mut [u8], len: u32, n: u8, count: u32)
    ensures { out.new ≡ put_head len n count out.old }
{
    put_half(out, 0, len / 256 / 256);
    put_half(out, 2, len);
    egg::inner::put_byte(out, 4, 1);
    egg::inner::put_byte(out, 5, n);
    put_half(out, 6, count);
}
