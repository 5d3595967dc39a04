// Exports the calls of `capi_lists` as C functions, for the archive libcapi_lists.a: each calls the function of its name there and states its clauses again.
#![tactic(auto)]

ghost use Rattle.std.specs.Prelude.{◌≡◌, [], ◌∷◌};
ghost use Rattle.lists_factor.specs.Each as factor;
ghost use Rattle.lists_group.specs.Each as group;
ghost use Rattle.capi_values.specs.Bridge.{handle, telling};
ghost use Rattle.capi_handles.specs.Product.{product_of};
ghost use Rattle.capi_lists.specs.Told.{told_of};

#[unsafe(no_mangle)]
pub extern "C" fn hg_inverse_each(
    table: &[u32],
    start: usize,
    room: u32,
    n: u8,
    count: u32,
    a: &[u32],
    out: &mut [u32],
    told: &mut [u32],
) -> u32
    ensures { telling result told.new (out.new ∷ []) ≡ told_of told.old out.old (factor.inverse_each table.now (handle start room n count) a.now out.old) }
{
    capi_lists::hg_inverse_each(table, start, room, n, count, a, out, told)
}

#[unsafe(no_mangle)]
pub extern "C" fn hg_powi_each(
    table: &[u32],
    start: usize,
    room: u32,
    n: u8,
    count: u32,
    a: &[u32],
    exponents: &[i32],
    out: &mut [u32],
    told: &mut [u32],
) -> u32
    ensures { telling result told.new (out.new ∷ []) ≡ told_of told.old out.old (factor.powi_each table.now (handle start room n count) a.now exponents.now out.old) }
{
    capi_lists::hg_powi_each(table, start, room, n, count, a, exponents, out, told)
}

#[unsafe(no_mangle)]
pub extern "C" fn hg_product_compose_each(
    table: &[u32],
    handles: &[u32],
    count: u8,
    a: &[u32],
    b: &[u32],
    out: &mut [u32],
    told: &mut [u32],
) -> u32
    ensures { telling result told.new (out.new ∷ []) ≡ told_of told.old out.old (group.compose_each table.now (product_of handles.now count) a.now b.now out.old) }
{
    capi_lists::hg_product_compose_each(table, handles, count, a, b, out, told)
}

#[unsafe(no_mangle)]
pub extern "C" fn hg_product_inverse_each(
    table: &[u32],
    handles: &[u32],
    count: u8,
    a: &[u32],
    out: &mut [u32],
    told: &mut [u32],
) -> u32
    ensures { telling result told.new (out.new ∷ []) ≡ told_of told.old out.old (group.inverse_each table.now (product_of handles.now count) a.now out.old) }
{
    capi_lists::hg_product_inverse_each(table, handles, count, a, out, told)
}

#[unsafe(no_mangle)]
pub extern "C" fn hg_product_powi_each(
    table: &[u32],
    handles: &[u32],
    count: u8,
    a: &[u32],
    exponents: &[i32],
    out: &mut [u32],
    told: &mut [u32],
) -> u32
    ensures { telling result told.new (out.new ∷ []) ≡ told_of told.old out.old (group.powi_each table.now (product_of handles.now count) a.now exponents.now out.old) }
{
    capi_lists::hg_product_powi_each(table, handles, count, a, exponents, out, told)
}
