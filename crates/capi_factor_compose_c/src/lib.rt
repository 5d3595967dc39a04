// Exports the calls of `capi_factor_compose` as C functions, for the archive libcapi_factor_compose.a: each calls the function of its name there and states its clauses again.
#![tactic(auto)]

ghost use Rattle.std.specs.Prelude.{◌≡◌};
ghost use Rattle.factor.specs.Questions.{compose_answer};
ghost use Rattle.capi_values.specs.Bridge.{handle, reached_code};

#[unsafe(no_mangle)]
pub extern "C" fn hg_compose(
    table: &[u32],
    start: usize,
    room: u32,
    n: u8,
    count: u32,
    a: u32,
    b: u32,
) -> u64
    ensures { result ≡ reached_code (compose_answer table.now (handle start room n count) (record { 0 = a }) (record { 0 = b })) }
{
    capi_factor_compose::hg_compose(table, start, room, n, count, a, b)
}
