// Exports the calls of `capi_factor_build` as C functions, for the archive libcapi_factor_build.a: each calls the function of its name there and states its clauses again.
#![tactic(auto)]

ghost use Rattle.std.specs.Prelude.{◌≡◌, [], ◌∷◌};
ghost use Rattle.factor.specs.Composed.{composed};
ghost use Rattle.enumeration.specs.Calls.{enumerates};
ghost use Rattle.capi_values.specs.Bridge.{telling, in_out, bridged};

#[unsafe(no_mangle)]
pub extern "C" fn hg_composed(
    table: &mut [u32],
    start: usize,
    work: &mut [u32],
    rows: &[u32],
    n: u8,
    room: u32,
    out: &mut [u32],
) -> u32
    ensures { telling result out.new (table.new ∷ work.new ∷ []) ≡ in_out 5 out.old (table.old ∷ work.old ∷ []) (bridged (composed table.old start work.old rows.now n room) out.old) }
{
    capi_factor_build::hg_composed(table, start, work, rows, n, room, out)
}

#[unsafe(no_mangle)]
pub extern "C" fn hg_enumerate(
    table: &mut [u32],
    start: usize,
    work: &mut [u32],
    orders: &[u32],
    n: u8,
    room: u32,
    out: &mut [u32],
) -> u32
    ensures { telling result out.new (table.new ∷ work.new ∷ []) ≡ in_out 5 out.old (table.old ∷ work.old ∷ []) (bridged (enumerates table.old start work.old orders.now n room) out.old) }
{
    capi_factor_build::hg_enumerate(table, start, work, orders, n, room, out)
}
