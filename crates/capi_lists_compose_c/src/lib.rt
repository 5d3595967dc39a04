// Exports the calls of `capi_lists_compose` as C functions, for the archive libcapi_lists_compose.a: each calls the function of its name there and states its clauses again.
#![tactic(auto)]

ghost use Rattle.std.specs.Prelude.{◌≡◌, [], ◌∷◌};
ghost use Rattle.lists_factor.specs.Each.{compose_each};
ghost use Rattle.capi_values.specs.Bridge.{handle, telling};
ghost use Rattle.capi_lists.specs.Told.{told_of};

#[unsafe(no_mangle)]
pub extern "C" fn hg_compose_each(
    table: &[u32],
    start: usize,
    room: u32,
    n: u8,
    count: u32,
    a: &[u32],
    b: &[u32],
    out: &mut [u32],
    told: &mut [u32],
) -> u32
    ensures { telling result told.new (out.new ∷ []) ≡ told_of told.old out.old (compose_each table.now (handle start room n count) a.now b.now out.old) }
{
    capi_lists_compose::hg_compose_each(table, start, room, n, count, a, b, out, told)
}
