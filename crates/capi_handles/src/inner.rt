// Reads products from lists of numbers.
ghost use Rattle.std.specs.Prelude.{◌≡◌, List, ℕ, ◌+◌, ◌*◌, ◌≤◌, length};
ghost use Rattle.group_handles.specs.Handles.{handles, seen};
ghost use Rattle.capi_handles.specs.Product.{byte_of, handle_at, product_at, product_of};

use egg::Factor;
use group_handles::Group;
use group_handles::inner::{Seen, both, times};

// A number as far as a byte can tell: 255 stands for all that is above.
pub fn byte_of(x: u32) -> u8
    ensures { result ≡ byte_of x }
{
    if 255 < x { 255 } else { x as u8 }
}

// A start by its two halves.
fn start_of(low: u32, high: u32) -> usize
    ensures { result ≡ low + high * 4294967296 }
{
    (low as usize) + (high as usize) * 4294967296
}

// Reads the handle from place `at` on.
pub fn handle_at(l: &[u32], at: u32) -> Factor
    ensures { result ≡ handle_at l.now at }
{
    let k = at as usize;
    if l.len() < k + 5 {
        return capi_values::inner::factor_of(0, 0, 0, 0);
    }
    capi_values::inner::factor_of(
        start_of(l[k], l[k + 1]),
        l[k + 2],
        byte_of(l[k + 3]),
        l[k + 4],
    )
}

// Reads the product whose handles stand from place `at` on.
pub fn product_at(l: &[u32], at: u32, count: u8) -> Group
    requires { at ≤ 1000 }
    ensures { result ≡ product_at l.now at count }
{
    let factors = [
        handle_at(l, at),
        handle_at(l, at + 5),
        handle_at(l, at + 10),
        handle_at(l, at + 15),
        handle_at(l, at + 20),
        handle_at(l, at + 25),
        handle_at(l, at + 30),
        handle_at(l, at + 35),
    ];
    Group { factors, count }
}

// Reads the product whose handles the list starts with.
pub fn product_of(l: &[u32], count: u8) -> Group
    ensures { result ≡ product_of l.now count }
{
    product_at(l, 0, count)
}

// How many handles a product with this count lists: eight at most.
pub fn listed(count: u8) -> u32
    ensures { ((l : List ℕ) → (at : ℕ) → result ≡ length (handles (product_at l at count))) × (result ≤ 8) }
{
    if 8 < count { 8 } else { count as u32 }
}

// Passes over the handles from place `at` on, as `group_handles::inner::look` does over a product's, without making the product.
pub fn look_at(from: &[u32], l: &[u32], at: u32, count: u8) -> Seen
    requires { at ≤ 1000 }
    ensures { result ≡ seen (length from.now) (handles (product_at l.now at count)) }
{
    let c = listed(count);
    let mut fit = true;
    let mut elements: u64 = 1;
    let mut generators: u32 = 0;
    for f in 0..c {
        let h = handle_at(l, at + f * 5);
        fit = both(fit, egg::fits(from, h));
        elements = times(elements, h.elements);
        generators += h.generators as u32;
    }
    Seen {
        fit,
        elements,
        generators,
    }
}
