// Exports the calls of `capi_factor` as C functions, for the archive libcapi_factor.a: each calls the function of its name there and states its clauses again.
#![tactic(auto)]

ghost use Rattle.std.specs.Prelude.{◌≡◌, []};
ghost use Rattle.egg.specs.Factor.{step_answer};
ghost use Rattle.factor.specs.Questions.{inverse_answer, conjugate_answer, generator_answer, count_answer};
ghost use Rattle.factor.specs.Relations.{check_answer};
ghost use Rattle.capi_values.specs.Bridge.{handle, reached_code, counted_code, telling, in_out, verdict_told};

#[unsafe(no_mangle)]
pub extern "C" fn hg_count(table: &[u32], start: usize, room: u32, n: u8, count: u32) -> u64
    ensures { result ≡ counted_code (count_answer table.now (handle start room n count)) }
{
    capi_factor::hg_count(table, start, room, n, count)
}

#[unsafe(no_mangle)]
pub extern "C" fn hg_step(
    table: &[u32],
    start: usize,
    room: u32,
    n: u8,
    count: u32,
    e: u32,
    g: u8,
) -> u64
    ensures { result ≡ reached_code (step_answer table.now (handle start room n count) (record { 0 = e }) (record { 0 = g })) }
{
    capi_factor::hg_step(table, start, room, n, count, e, g)
}

#[unsafe(no_mangle)]
pub extern "C" fn hg_generator(
    table: &[u32],
    start: usize,
    room: u32,
    n: u8,
    count: u32,
    g: u8,
) -> u64
    ensures { result ≡ reached_code (generator_answer table.now (handle start room n count) (record { 0 = g })) }
{
    capi_factor::hg_generator(table, start, room, n, count, g)
}

#[unsafe(no_mangle)]
pub extern "C" fn hg_conjugate(
    table: &[u32],
    start: usize,
    room: u32,
    n: u8,
    count: u32,
    a: u32,
    b: u32,
) -> u64
    ensures { result ≡ reached_code (conjugate_answer table.now (handle start room n count) (record { 0 = a }) (record { 0 = b })) }
{
    capi_factor::hg_conjugate(table, start, room, n, count, a, b)
}

#[unsafe(no_mangle)]
pub extern "C" fn hg_inverse(
    table: &[u32],
    start: usize,
    room: u32,
    n: u8,
    count: u32,
    a: u32,
) -> u64
    ensures { result ≡ reached_code (inverse_answer table.now (handle start room n count) (record { 0 = a })) }
{
    capi_factor::hg_inverse(table, start, room, n, count, a)
}

#[unsafe(no_mangle)]
pub extern "C" fn hg_check(
    table: &[u32],
    start: usize,
    room: u32,
    n: u8,
    count: u32,
    orders: &[u32],
    out: &mut [u32],
) -> u32
    ensures { telling result out.new [] ≡ in_out 4 out.old [] (verdict_told (check_answer table.now (handle start room n count) orders.now) out.old) }
{
    capi_factor::hg_check(table, start, room, n, count, orders, out)
}
