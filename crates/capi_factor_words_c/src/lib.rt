// Exports the calls of `capi_factor_words` as C functions, for the archive libcapi_factor_words.a: each calls the function of its name there and states its clauses again.
#![tactic(auto)]

ghost use Rattle.std.specs.Prelude.{◌≡◌, length, replicate};
ghost use Rattle.factor.specs.Questions.{length_answer, write_answer, written, word_part};
ghost use Rattle.capi_values.specs.Bridge.{handle, counted_code, letter_of};

#[unsafe(no_mangle)]
pub extern "C" fn hg_length(
    table: &[u32],
    start: usize,
    room: u32,
    n: u8,
    count: u32,
    e: u32,
) -> u64
    ensures { result ≡ counted_code (length_answer table.now (handle start room n count) (record { 0 = e })) }
{
    capi_factor_words::hg_length(table, start, room, n, count, e)
}

#[unsafe(no_mangle)]
pub extern "C" fn hg_word(
    table: &[u32],
    start: usize,
    room: u32,
    n: u8,
    count: u32,
    e: u32,
    out: &mut [u8],
) -> u64
    ensures { (result ≡ counted_code (write_answer table.now (handle start room n count) (record { 0 = e }) (length out.old))) × (out.new ≡ written table.now (handle start room n count) (record { 0 = e }) out.old) }
{
    capi_factor_words::hg_word(table, start, room, n, count, e, out)
}

#[unsafe(no_mangle)]
pub extern "C" fn hg_part(
    table: &[u32],
    start: usize,
    room: u32,
    n: u8,
    count: u32,
    e: u32,
    k: usize,
) -> u64
    ensures { result ≡ letter_of (word_part table.now (handle start room n count) (record { 0 = e }) (replicate 4096 0)) k }
{
    capi_factor_words::hg_part(table, start, room, n, count, e, k)
}
