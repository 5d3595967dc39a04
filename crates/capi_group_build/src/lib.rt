// C functions that make a product, flatten it, and give its elements as digits and as words. A product is a list of handles and a count, and answers
// are numbers, as in `capi_group`.
// `capi_group_build_c` exports them to C.
#![tactic(auto)]

ghost use Rattle.std.specs.Prelude.{◌≡◌, [], ◌∷◌, length};
ghost use Rattle.capi_values.specs.Bridge.{reached_code, counted_code, telling, in_out, bridged};
ghost use Rattle.egg.specs.Answers.{answer_of};
ghost use Rattle.egg.specs.Factor.{verdict_paper};
ghost use Rattle.group_handles.specs.Handles.{joins};
ghost use Rattle.group.specs.Questions.{split_answer, split_leaves, join_answer, length_answer, write_answer, written};
ghost use Rattle.group_flatten.specs.Flat.{flat};
ghost use Rattle.capi_handles.specs.Product.{product_of};
ghost use Rattle.capi_group_build.specs.Product.{grouped_into, grouped};

use egg::{GroupElementId, Refusal};
use group_handles::Group;

// Writes the verdict, and after it how many factors the product has, which is 1 where it is a refusal. Hands the verdict's number back.
fn write_grouped(out: &mut [u32], made: Result<Group, Refusal>) -> u32
    ensures { (result ≡ (verdict_paper (answer_of made)).number) × (out.new ≡ grouped_into made out.old) }
{
    match made {
        Err(why) => {
            let number = capi_values::inner::write_refusal(out, why);
            egg::inner::put(out, 4, 1);
            number
        }
        Ok(g) => {
            let number = capi_values::inner::write_verdict(out, Ok(()));
            egg::inner::put(out, 4, g.count as usize);
            number
        }
    }
}

// Writes the verdict on the product of two into out, and how many factors it has: those of the first and then those of the second. Refuses in this
// order: 4 for an out shorter than 5, 17 for a handle that does not fit, 15 for more than 8 factors or more than 4,294,967,295 elements.
pub fn hg_product(
    table: &[u32],
    first: &[u32],
    k: u8,
    second: &[u32],
    m: u8,
    out: &mut [u32],
) -> u32
    ensures { telling result out.new [] ≡ in_out 5 out.old [] (grouped (joins (length table.now) (product_of first.now k) (product_of second.now m)) out.old) }
{
    if out.len() < 5 {
        return 4;
    }
    let a = capi_handles::inner::product_of(first, k);
    let b = capi_handles::inner::product_of(second, m);
    let p = group::product(table, a, b);
    write_grouped(out, p)
}

// Answers how long the word of e is. Refuses in this order: 17 for a handle that does not fit, 14 for an element out of range, 15 for a product too
// large, 17 for a recorded length over 4,096.
pub fn hg_product_length(table: &[u32], handles: &[u32], count: u8, e: u32) -> u64
    ensures { result ≡ counted_code (length_answer table.now (product_of handles.now count) (record { 0 = e })) }
{
    let g = capi_handles::inner::product_of(handles, count);
    capi_values::inner::counted_code(group::word_length(table, g, GroupElementId(e)))
}

// Writes the digits of e, its elements in each factor, to the start of out and answers how many they are. Refuses in this order: 17 for a handle that
// does not fit, 14 for an element out of range, 15 for a product too large, 4 for a short out.
pub fn hg_product_split(table: &[u32], handles: &[u32], count: u8, e: u32, out: &mut [u32]) -> u64
    ensures { (result ≡ counted_code (split_answer table.now (product_of handles.now count) (record { 0 = e }) (length out.old))) × (out.new ≡ split_leaves table.now (product_of handles.now count) (record { 0 = e }) out.old) }
{
    let g = capi_handles::inner::product_of(handles, count);
    capi_values::inner::counted_code(group::split(table, g, GroupElementId(e), out))
}

// Answers the element whose digits the list starts with. Refuses in this order: 17 for a handle that does not fit, 14 for the first digit out of
// range, 15 for a product too large, 4 for a list with fewer digits than there are factors.
pub fn hg_product_join(table: &[u32], handles: &[u32], count: u8, digits: &[u32]) -> u64
    ensures { result ≡ reached_code (join_answer table.now (product_of handles.now count) digits.now) }
{
    let g = capi_handles::inner::product_of(handles, count);
    capi_values::inner::reached_code(group::join(table, g, digits))
}

// Writes the word of e to the start of out and answers its length. Refuses as hg_product_length does, then with 4 a short out, then with 17 a cell of letters
// that is out of range.
pub fn hg_product_word(table: &[u32], handles: &[u32], count: u8, e: u32, out: &mut [u8]) -> u64
    ensures { (result ≡ counted_code (write_answer table.now (product_of handles.now count) (record { 0 = e }) (length out.old))) × (out.new ≡ written table.now (product_of handles.now count) (record { 0 = e }) out.old) }
{
    let g = capi_handles::inner::product_of(handles, count);
    capi_values::inner::counted_code(group::write_word(table, g, GroupElementId(e), out))
}

// Builds one factor that is the product, with its numbers. Refuses in this order: 4 for an out shorter than 5, 17 for a handle that does not fit, 15
// for a product too large, 1 for more than 8 generators, 4 for a room out of range or a short buffer; then as hg_composed does while it reads and
// after it, and with 17 a number read that is out of range.
pub fn hg_product_flatten(
    from: &[u32],
    handles: &[u32],
    count: u8,
    table: &mut [u32],
    start: usize,
    work: &mut [u32],
    room: u32,
    out: &mut [u32],
) -> u32
    ensures { telling result out.new (table.new ∷ work.new ∷ []) ≡ in_out 5 out.old (table.old ∷ work.old ∷ []) (bridged (flat from.now (product_of handles.now count) table.old start work.old room) out.old) }
{
    if out.len() < 5 {
        return 4;
    }
    let g = capi_handles::inner::product_of(handles, count);
    let m = group::flatten(from, g, table, start, work, room);
    capi_values::inner::write_made(out, m)
}
