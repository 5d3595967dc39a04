// Exports the calls of `capi_group_build` as C functions, for the archive libcapi_group_build.a: each calls the function of its name there and states its clauses again.
#![tactic(auto)]

ghost use Rattle.std.specs.Prelude.{◌≡◌, [], ◌∷◌, length};
ghost use Rattle.capi_values.specs.Bridge.{reached_code, counted_code, telling, in_out, bridged};
ghost use Rattle.group_handles.specs.Handles.{joins};
ghost use Rattle.group.specs.Questions.{split_answer, split_leaves, join_answer, length_answer, write_answer, written};
ghost use Rattle.group_flatten.specs.Flat.{flat};
ghost use Rattle.capi_handles.specs.Product.{product_of};
ghost use Rattle.capi_group_build.specs.Product.{grouped};

#[unsafe(no_mangle)]
pub extern "C" fn hg_product(
    table: &[u32],
    first: &[u32],
    k: u8,
    second: &[u32],
    m: u8,
    out: &mut [u32],
) -> u32
    ensures { telling result out.new [] ≡ in_out 5 out.old [] (grouped (joins (length table.now) (product_of first.now k) (product_of second.now m)) out.old) }
{
    capi_group_build::hg_product(table, first, k, second, m, out)
}

#[unsafe(no_mangle)]
pub extern "C" fn hg_product_length(table: &[u32], handles: &[u32], count: u8, e: u32) -> u64
    ensures { result ≡ counted_code (length_answer table.now (product_of handles.now count) (record { 0 = e })) }
{
    capi_group_build::hg_product_length(table, handles, count, e)
}

#[unsafe(no_mangle)]
pub extern "C" fn hg_product_split(
    table: &[u32],
    handles: &[u32],
    count: u8,
    e: u32,
    out: &mut [u32],
) -> u64
    ensures { (result ≡ counted_code (split_answer table.now (product_of handles.now count) (record { 0 = e }) (length out.old))) × (out.new ≡ split_leaves table.now (product_of handles.now count) (record { 0 = e }) out.old) }
{
    capi_group_build::hg_product_split(table, handles, count, e, out)
}

#[unsafe(no_mangle)]
pub extern "C" fn hg_product_join(table: &[u32], handles: &[u32], count: u8, digits: &[u32]) -> u64
    ensures { result ≡ reached_code (join_answer table.now (product_of handles.now count) digits.now) }
{
    capi_group_build::hg_product_join(table, handles, count, digits)
}

#[unsafe(no_mangle)]
pub extern "C" fn hg_product_word(
    table: &[u32],
    handles: &[u32],
    count: u8,
    e: u32,
    out: &mut [u8],
) -> u64
    ensures { (result ≡ counted_code (write_answer table.now (product_of handles.now count) (record { 0 = e }) (length out.old))) × (out.new ≡ written table.now (product_of handles.now count) (record { 0 = e }) out.old) }
{
    capi_group_build::hg_product_word(table, handles, count, e, out)
}

#[unsafe(no_mangle)]
pub extern "C" fn hg_product_flatten(
    from: &[u32],
    handles: &[u32],
    count: u8,
    table: &mut [u32],
    start: usize,
    work: &mut [u32],
    room: u32,
    out: &mut [u32],
) -> u32
    ensures { telling result out.new (table.new ∷ work.new ∷ []) ≡ in_out 5 out.old (table.old ∷ work.old ∷ []) (bridged (flat from.now (product_of handles.now count) table.old start work.old room) out.old) }
{
    capi_group_build::hg_product_flatten(from, handles, count, table, start, work, room, out)
}
