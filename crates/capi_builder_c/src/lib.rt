// Exports the calls of `capi_builder` as C functions, for the archive libcapi_builder.a: each calls the function of its name there and states its clauses again.
#![tactic(auto)]

ghost use Rattle.std.specs.Prelude.{◌≡◌, [], ◌∷◌};
ghost use Rattle.builder.specs.Calls.{Leaving, begins, grows, stores, builds};
ghost use Rattle.capi_values.specs.Bridge.{handle, telling, in_out, bridged};
ghost use Rattle.capi_builder.specs.Answers.{begun_told, grown_told, stored_told};

#[unsafe(no_mangle)]
pub extern "C" fn hg_begin(
    table: &mut [u32],
    start: usize,
    room: u32,
    n: u8,
    out: &mut [u32],
) -> u32
    ensures { telling result out.new (table.new ∷ []) ≡ in_out 5 out.old (table.old ∷ []) (begun_told (begins table.old start room n) out.old) }
{
    capi_builder::hg_begin(table, start, room, n, out)
}

#[unsafe(no_mangle)]
pub extern "C" fn hg_add(
    table: &mut [u32],
    start: usize,
    room: u32,
    n: u8,
    count: u32,
    e: u32,
    g: u8,
    out: &mut [u32],
) -> u32
    ensures { telling result out.new (table.new ∷ []) ≡ in_out 5 out.old (table.old ∷ []) (grown_told (grows table.old (record { 0 = handle start room n count }) (record { 0 = e }) (record { 0 = g })) out.old) }
{
    capi_builder::hg_add(table, start, room, n, count, e, g, out)
}

#[unsafe(no_mangle)]
pub extern "C" fn hg_set(
    table: &mut [u32],
    start: usize,
    room: u32,
    n: u8,
    count: u32,
    e: u32,
    g: u8,
    x: u32,
) -> u64
    ensures { Leaving.leaving result table.new ≡ stored_told (stores table.old (record { 0 = handle start room n count }) (record { 0 = e }) (record { 0 = g }) (record { 0 = x })) }
{
    capi_builder::hg_set(table, start, room, n, count, e, g, x)
}

#[unsafe(no_mangle)]
pub extern "C" fn hg_build(
    table: &mut [u32],
    start: usize,
    room: u32,
    n: u8,
    count: u32,
    work: &mut [u32],
    out: &mut [u32],
) -> u32
    ensures { telling result out.new (table.new ∷ work.new ∷ []) ≡ in_out 5 out.old (table.old ∷ work.old ∷ []) (bridged (builds table.old (record { 0 = handle start room n count }) work.old) out.old) }
{
    capi_builder::hg_build(table, start, room, n, count, work, out)
}
