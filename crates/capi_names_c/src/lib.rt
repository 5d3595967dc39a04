// Exports the calls of `capi_names` as C functions, for the archive libcapi_names.a: each calls the function of its name there and states its clauses again.
#![tactic(auto)]

ghost use Rattle.std.specs.Prelude.{◌≡◌, [], ◌∷◌, length, replicate};
ghost use Rattle.capi_values.specs.Bridge.{telling, counted_code, letter_of};
ghost use Rattle.names.specs.Making.{named_composed, named_enumerates, named_begins};
ghost use Rattle.names.specs.Joined.{joined_answer, joined_leaves, joined_part};
ghost use Rattle.capi_names.specs.Names.{named_product};
ghost use Rattle.capi_names.specs.Told.{in_both, named_told, named_begun_told};

#[unsafe(no_mangle)]
pub extern "C" fn hg_composed_named(
    table: &mut [u32],
    start: usize,
    work: &mut [u32],
    rows: &[u32],
    n: u8,
    room: u32,
    name: &[u8],
    out: &mut [u32],
    record: &mut [u8],
) -> u32
    ensures { telling result out.new (table.new ∷ work.new ∷ «record».new ∷ []) ≡ in_both out.old «record».old (table.old ∷ work.old ∷ «record».old ∷ []) (named_told (named_composed table.old start work.old rows.now n room name.now) out.old «record».old) }
{
    capi_names::hg_composed_named(table, start, work, rows, n, room, name, out, record)
}

#[unsafe(no_mangle)]
pub extern "C" fn hg_enumerate_named(
    table: &mut [u32],
    start: usize,
    work: &mut [u32],
    orders: &[u32],
    n: u8,
    room: u32,
    name: &[u8],
    out: &mut [u32],
    record: &mut [u8],
) -> u32
    ensures { telling result out.new (table.new ∷ work.new ∷ «record».new ∷ []) ≡ in_both out.old «record».old (table.old ∷ work.old ∷ «record».old ∷ []) (named_told (named_enumerates table.old start work.old orders.now n room name.now) out.old «record».old) }
{
    capi_names::hg_enumerate_named(table, start, work, orders, n, room, name, out, record)
}

#[unsafe(no_mangle)]
pub extern "C" fn hg_begin_named(
    table: &mut [u32],
    start: usize,
    room: u32,
    n: u8,
    name: &[u8],
    out: &mut [u32],
    record: &mut [u8],
) -> u32
    ensures { telling result out.new (table.new ∷ «record».new ∷ []) ≡ in_both out.old «record».old (table.old ∷ «record».old ∷ []) (named_begun_told (named_begins table.old start room n name.now) out.old «record».old) }
{
    capi_names::hg_begin_named(table, start, room, n, name, out, record)
}

#[unsafe(no_mangle)]
pub extern "C" fn hg_joined(
    table: &[u32],
    handles: &[u32],
    count: u8,
    names: &[u8],
    out: &mut [u8],
) -> u64
    ensures { (result ≡ counted_code (joined_answer table.now (named_product handles.now count names.now) (length out.old))) × (out.new ≡ joined_leaves table.now (named_product handles.now count names.now) out.old) }
{
    capi_names::hg_joined(table, handles, count, names, out)
}

#[unsafe(no_mangle)]
pub extern "C" fn hg_joined_part(
    table: &[u32],
    handles: &[u32],
    count: u8,
    names: &[u8],
    k: usize,
) -> u64
    ensures { result ≡ letter_of (joined_part table.now (named_product handles.now count names.now) (replicate 277 0)) k }
{
    capi_names::hg_joined_part(table, handles, count, names, k)
}
