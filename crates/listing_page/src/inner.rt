// Makes the page of an input: reads its orders, and has what they give written by `listing_lines`.
ghost use Rattle.std.specs.Prelude.{◌≡◌, ◌<◌, ◌≤◌, length, take, replicate};
ghost use Rattle.egg.specs.Pairs.{orders_right};
ghost use Rattle.listing_lines.specs.Text.{Writes};
ghost use Rattle.listing_page.specs.Listing.{order_in, orders_in, page_by, right_page, listing_of};

use egg::{Factor, Refusal};

// Reads the i-th order: "then two bytes an order", the higher first.
pub fn order_at(input: &[u8], i: usize) -> u32
    requires { i < 28 }
    ensures { result ≡ order_in input.now i }
{
    (egg::inner::byte(input, 2 * i + 1) as u32) * 256 + (egg::inner::byte(input, 2 * i + 2) as u32)
}

// Stores the first k orders of the input, from the front on.
pub fn read_orders(input: &[u8], orders: &mut [u32], k: usize)
    requires { (k ≤ 28) × (length orders.old ≡ 28) }
    ensures { take k orders.new ≡ orders_in k input.now 0 }
{
    for i in 0..k {
        orders[i] = order_at(input, i);
    }
}

// Writes what an enumeration answered: its lines, or its refusal.
pub fn write_answer(out: &mut [u8], made: Result<Factor, Refusal>, table: &[u32]) -> usize
    ensures { Writes out.old 0 (page_by made table.now) out.new result }
{
    match made {
        Ok(f) => listing_lines::inner::write_group(out, 0, table, f.generators, f.elements),
        Err(why) => listing_lines::inner::write_refused(out, 0, why.number()),
    }
}

// Writes the page of a list of orders. Refuses in this order: 2 for its length, 3 for the first wrong order, 4 for more than four generators; then as
// the enumeration with room 120 does.
pub fn write_page(
    out: &mut [u8],
    table: &mut [u32],
    work: &mut [u32],
    orders: &[u32],
    n: u8,
) -> usize
    requires { (table.old ≡ replicate 1440 0) × (work.old ≡ replicate 13440 0) }
    ensures { Writes out.old 0 (right_page (orders_right orders.now n) n orders.now) out.new result }
{
    if let Err(why) = factor_relations::inner::orders_right(orders, n) {
        return listing_lines::inner::write_refused(out, 0, why.number());
    }
    if 4 < n {
        return listing_lines::inner::write_refused(out, 0, 4);
    }
    let made = enumeration::enumerate(table, 0, work, orders, n, 120);
    write_answer(out, made, table)
}

// Writes the page of an input. Refuses in this order: 2 for no byte at all, 1 for more than 8 generators, 2 for missing or extra bytes; then as
// `write_page` does.
pub fn write_listing(
    input: &[u8],
    out: &mut [u8],
    table: &mut [u32],
    work: &mut [u32],
    orders: &mut [u32],
) -> usize
    requires { (table.old ≡ replicate 1440 0) × (work.old ≡ replicate 13440 0) × (length orders.old ≡ 28) }
    ensures { Writes out.old 0 (listing_of input.now) out.new result }
{
    if input.len() == 0 {
        return listing_lines::inner::write_refused(out, 0, 2);
    }
    let n = input[0];
    if 8 < n {
        return listing_lines::inner::write_refused(out, 0, 1);
    }
    let k = egg::inner::pair_count(n) as usize;
    if input.len() != 2 * k + 1 {
        return listing_lines::inner::write_refused(out, 0, 2);
    }
    read_orders(input, orders, k);
    write_page(out, table, work, &orders[..k], n)
}
