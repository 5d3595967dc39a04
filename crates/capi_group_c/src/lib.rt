// Exports the calls of `capi_group` as C functions, for the archive libcapi_group.a: each calls the function of its name there and states its clauses again.
#![tactic(auto)]

ghost use Rattle.std.specs.Prelude.{◌≡◌};
ghost use Rattle.capi_values.specs.Bridge.{reached_code, counted_code};
ghost use Rattle.group.specs.Questions.{count_answer, generators_answer, generator_answer, step_answer, project_answer, inject_answer, compose_answer, inverse_answer, conjugate_answer, powi_answer, period_answer};
ghost use Rattle.capi_handles.specs.Product.{product_of};

#[unsafe(no_mangle)]
pub extern "C" fn hg_product_count(table: &[u32], handles: &[u32], count: u8) -> u64
    ensures { result ≡ counted_code (count_answer table.now (product_of handles.now count)) }
{
    capi_group::hg_product_count(table, handles, count)
}

#[unsafe(no_mangle)]
pub extern "C" fn hg_product_generators(table: &[u32], handles: &[u32], count: u8) -> u64
    ensures { result ≡ counted_code (generators_answer table.now (product_of handles.now count)) }
{
    capi_group::hg_product_generators(table, handles, count)
}

#[unsafe(no_mangle)]
pub extern "C" fn hg_product_generator(table: &[u32], handles: &[u32], count: u8, x: u8) -> u64
    ensures { result ≡ reached_code (generator_answer table.now (product_of handles.now count) (record { 0 = x })) }
{
    capi_group::hg_product_generator(table, handles, count, x)
}

#[unsafe(no_mangle)]
pub extern "C" fn hg_product_step(table: &[u32], handles: &[u32], count: u8, e: u32, x: u8) -> u64
    ensures { result ≡ reached_code (step_answer table.now (product_of handles.now count) (record { 0 = e }) (record { 0 = x })) }
{
    capi_group::hg_product_step(table, handles, count, e, x)
}

#[unsafe(no_mangle)]
pub extern "C" fn hg_product_project(
    table: &[u32],
    handles: &[u32],
    count: u8,
    f: u8,
    e: u32,
) -> u64
    ensures { result ≡ reached_code (project_answer table.now (product_of handles.now count) f (record { 0 = e })) }
{
    capi_group::hg_product_project(table, handles, count, f, e)
}

#[unsafe(no_mangle)]
pub extern "C" fn hg_product_inject(table: &[u32], handles: &[u32], count: u8, f: u8, e: u32) -> u64
    ensures { result ≡ reached_code (inject_answer table.now (product_of handles.now count) f (record { 0 = e })) }
{
    capi_group::hg_product_inject(table, handles, count, f, e)
}

#[unsafe(no_mangle)]
pub extern "C" fn hg_product_compose(
    table: &[u32],
    handles: &[u32],
    count: u8,
    a: u32,
    b: u32,
) -> u64
    ensures { result ≡ reached_code (compose_answer table.now (product_of handles.now count) (record { 0 = a }) (record { 0 = b })) }
{
    capi_group::hg_product_compose(table, handles, count, a, b)
}

#[unsafe(no_mangle)]
pub extern "C" fn hg_product_inverse(table: &[u32], handles: &[u32], count: u8, a: u32) -> u64
    ensures { result ≡ reached_code (inverse_answer table.now (product_of handles.now count) (record { 0 = a })) }
{
    capi_group::hg_product_inverse(table, handles, count, a)
}

#[unsafe(no_mangle)]
pub extern "C" fn hg_product_conjugate(
    table: &[u32],
    handles: &[u32],
    count: u8,
    a: u32,
    b: u32,
) -> u64
    ensures { result ≡ reached_code (conjugate_answer table.now (product_of handles.now count) (record { 0 = a }) (record { 0 = b })) }
{
    capi_group::hg_product_conjugate(table, handles, count, a, b)
}

#[unsafe(no_mangle)]
pub extern "C" fn hg_product_powi(table: &[u32], handles: &[u32], count: u8, a: u32, i: i32) -> u64
    ensures { result ≡ reached_code (powi_answer table.now (product_of handles.now count) (record { 0 = a }) i) }
{
    capi_group::hg_product_powi(table, handles, count, a, i)
}

#[unsafe(no_mangle)]
pub extern "C" fn hg_product_period(table: &[u32], handles: &[u32], count: u8, a: u32) -> u64
    ensures { result ≡ counted_code (period_answer table.now (product_of handles.now count) (record { 0 = a })) }
{
    capi_group::hg_product_period(table, handles, count, a)
}
