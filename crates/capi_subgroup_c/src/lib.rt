// Exports the calls of `capi_subgroup` as C functions, for the archive libcapi_subgroup.a: each calls the function of its name there and states its clauses again.
#![tactic(auto)]

ghost use Rattle.std.specs.Prelude.{◌≡◌, [], ◌∷◌, length};
ghost use Rattle.egg.specs.Answers.{answer_of};
ghost use Rattle.capi_values.specs.Bridge.{reached_code, counted_code, telling, in_out, verdict_told};
ghost use Rattle.capi_handles.specs.Product.{product_of};
ghost use Rattle.group_handles.specs.Handles.{handles};
ghost use Rattle.subgroup_build.specs.Generated.{from_generators};
ghost use Rattle.subgroup_predicate.specs.Predicate.{from_predicate};
ghost use Rattle.subgroup_sides.specs.Sides.{left_product, right_product};
ghost use Rattle.subgroup.specs.Questions.{to_over_answer, to_sub_answer, generator_answer, generator_count_answer};
ghost use Rattle.capi_subgroup.specs.Subgroup.{subgroup_from, within_code, subgroup_told};

#[unsafe(no_mangle)]
pub extern "C" fn hg_subgroup(
    from: &[u32],
    handles: &[u32],
    count: u8,
    gens: &[u32],
    table: &mut [u32],
    start: usize,
    work: &mut [u32],
    inn: &mut [u32],
    outw: &mut [u32],
    room: u32,
    out: &mut [u32],
) -> u32
    ensures { telling result out.new (table.new ∷ work.new ∷ inn.new ∷ outw.new ∷ []) ≡ in_out 6 out.old (table.old ∷ work.old ∷ inn.old ∷ outw.old ∷ []) (subgroup_told (from_generators from.now (product_of handles.now count) gens.now table.old start work.old inn.old outw.old room) out.old) }
{
    capi_subgroup::hg_subgroup(
        from, handles, count, gens, table, start, work, inn, outw, room, out,
    )
}

#[unsafe(no_mangle)]
pub extern "C" fn hg_subgroup_predicate(
    from: &[u32],
    handles: &[u32],
    count: u8,
    members: &[u8],
    table: &mut [u32],
    start: usize,
    work: &mut [u32],
    inn: &mut [u32],
    outw: &mut [u32],
    room: u32,
    out: &mut [u32],
) -> u32
    ensures { telling result out.new (table.new ∷ work.new ∷ inn.new ∷ outw.new ∷ []) ≡ in_out 6 out.old (table.old ∷ work.old ∷ inn.old ∷ outw.old ∷ []) (subgroup_told (from_predicate from.now (product_of handles.now count) members.now table.old start work.old inn.old outw.old room) out.old) }
{
    capi_subgroup::hg_subgroup_predicate(
        from, handles, count, members, table, start, work, inn, outw, room, out,
    )
}

#[unsafe(no_mangle)]
pub extern "C" fn hg_subgroup_over(
    from: &[u32],
    table: &[u32],
    sub: &[u32],
    outw: &[u32],
    e: u32,
) -> u64
    ensures { result ≡ reached_code (to_over_answer (length from.now) (length table.now) (subgroup_from sub.now) outw.now (record { 0 = e })) }
{
    capi_subgroup::hg_subgroup_over(from, table, sub, outw, e)
}

#[unsafe(no_mangle)]
pub extern "C" fn hg_subgroup_back(
    from: &[u32],
    table: &[u32],
    sub: &[u32],
    inn: &[u32],
    x: u32,
) -> u64
    ensures { result ≡ within_code (to_sub_answer (length from.now) (length table.now) (subgroup_from sub.now) inn.now (record { 0 = x })) }
{
    capi_subgroup::hg_subgroup_back(from, table, sub, inn, x)
}

#[unsafe(no_mangle)]
pub extern "C" fn hg_subgroup_generator(
    from: &[u32],
    table: &[u32],
    sub: &[u32],
    outw: &[u32],
    g: u8,
) -> u64
    ensures { result ≡ reached_code (generator_answer from.now table.now (subgroup_from sub.now) outw.now (record { 0 = g })) }
{
    capi_subgroup::hg_subgroup_generator(from, table, sub, outw, g)
}

#[unsafe(no_mangle)]
pub extern "C" fn hg_subgroup_generators(from: &[u32], table: &[u32], sub: &[u32]) -> u64
    ensures { result ≡ counted_code (generator_count_answer (length from.now) (length table.now) (subgroup_from sub.now)) }
{
    capi_subgroup::hg_subgroup_generators(from, table, sub)
}

#[unsafe(no_mangle)]
pub extern "C" fn hg_subgroup_left(
    from: &[u32],
    table: &[u32],
    handles: &[u32],
    count: u8,
    sub: &[u32],
    out: &mut [u32],
) -> u32
    ensures { telling result out.new [] ≡ in_out 4 out.old [] (verdict_told (answer_of (left_product (length from.now) (length table.now) (product_of handles.now count) (subgroup_from sub.now))) out.old) }
{
    capi_subgroup::hg_subgroup_left(from, table, handles, count, sub, out)
}

#[unsafe(no_mangle)]
pub extern "C" fn hg_subgroup_right(
    from: &[u32],
    table: &[u32],
    sub: &[u32],
    handles: &[u32],
    count: u8,
    out: &mut [u32],
) -> u32
    ensures { telling result out.new [] ≡ in_out 4 out.old [] (verdict_told (answer_of (right_product (length from.now) (length table.now) (subgroup_from sub.now) (product_of handles.now count))) out.old) }
{
    capi_subgroup::hg_subgroup_right(from, table, sub, handles, count, out)
}
