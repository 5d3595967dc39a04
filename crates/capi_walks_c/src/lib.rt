// Exports the calls of `capi_walks` as C functions, for the archive libcapi_walks.a: each calls the function of its name there and states its clauses again.
#![tactic(auto)]

ghost use Rattle.std.specs.Prelude.{◌≡◌};
ghost use Rattle.factor.specs.Questions as factor;
ghost use Rattle.group.specs.Questions as group;
ghost use Rattle.capi_values.specs.Bridge.{handle, reached_code};
ghost use Rattle.capi_handles.specs.Product.{product_of};

#[unsafe(no_mangle)]
pub extern "C" fn hg_walk(
    table: &[u32],
    start: usize,
    room: u32,
    n: u8,
    count: u32,
    from: u32,
    word: &[u8],
) -> u64
    ensures { result ≡ reached_code (factor.walk_answer table.now (handle start room n count) (record { 0 = from }) word.now) }
{
    capi_walks::hg_walk(table, start, room, n, count, from, word)
}

#[unsafe(no_mangle)]
pub extern "C" fn hg_product_walk(
    table: &[u32],
    handles: &[u32],
    count: u8,
    from: u32,
    word: &[u8],
) -> u64
    ensures { result ≡ reached_code (group.walk_answer table.now (product_of handles.now count) (record { 0 = from }) word.now) }
{
    capi_walks::hg_product_walk(table, handles, count, from, word)
}
