// The products of a product's elements and their inverses, a chunk of places at a time. A chunk's elements are cut into their digits factor by factor, so
// that each factor is asked about all its places at once; its lists are short enough to stay near.
ghost use Rattle.std.specs.Prelude.{◌≡◌, true, [], ◌+◌, ◌*◌, ◌≤◌, ◌<◌, length, get_or};
ghost use Rattle.lists.specs.Passes.{Written};
ghost use Rattle.lists.specs.Worked.{AllRight};
ghost use Rattle.group_handles.specs.Handles.{handles, elements_of, all_fit};
ghost use Rattle.group_digits.specs.Digits.{PartQuestion};
ghost use Rattle.lists_group.specs.Each.{compose_at, inverse_at};
ghost use Rattle.lists_group.specs.Passes.{Copied, Cut, Addable, Low, Inverted, Ready, Gathered, Sound};

use egg::GroupElementId;
use group_handles::Group;

// Copies numbers to the start of a list: whether all are below the limit.
fn copy_below(limit: u32, from: &[u32], to: &mut [u32]) -> bool
    requires { length from.now ≤ length to.old }
    ensures { result ≡ true → Copied limit from.now to.new }
{
    for i in 0..from.len() {
        let x = from[i];
        if limit <= x {
            return false;
        }
        to[i] = x;
    }
    true
}

// Cuts the lowest digit off each of the first k numbers.
fn cut(n: u32, k: usize, rest: &mut [u32], digits: &mut [u32])
    requires { (0 < n) × ((k ≤ length rest.old) × (k ≤ length digits.old)) }
    ensures { Cut n k rest.old digits.new rest.new }
{
    for i in 0..k {
        let x = rest[i];
        digits[i] = x % n;
        rest[i] = x / n;
    }
}

// Adds the first k digits, each times the stride.
fn add(stride: u32, k: usize, digits: &[u32], sums: &mut [u32])
    requires { (k ≤ length digits.now) × ((k ≤ length sums.old) × Addable k stride digits.now sums.old) }
    ensures { Written k (λ i. get_or sums.old i 0 + stride * get_or digits.now i 0) sums.new }
{
    for i in 0..k {
        sums[i] += stride * digits[i];
    }
}

// A factor's turn at inverses, in one pass: the lowest digit is cut off each of the first k numbers, and its inverse, which stands in its row, added to the
// sum, times the stride. Whether each had one.
fn invert(
    s: &[u32],
    generators: u8,
    n: u32,
    stride: u32,
    k: usize,
    rest: &mut [u32],
    sums: &mut [u32],
) -> bool
    requires { ((0 < n) × (stride * n ≤ 4294967295)) × ((k ≤ length rest.old) × ((k ≤ length sums.old) × Low k stride sums.old)) }
    ensures { result ≡ true → Inverted s.now generators n stride k rest.old sums.old rest.new sums.new }
{
    for i in 0..k {
        let x = rest[i];
        let inverse = egg::inner::get(s, egg::inner::inverse_at(generators, GroupElementId(x % n)));
        if n <= inverse {
            return false;
        }
        rest[i] = x / n;
        sums[i] += stride * inverse;
    }
    true
}

// The factors one after another, as `compose_digits` does for one pair of elements: whether each found the products of all its digits.
fn factors_in_turn(
    table: &[u32],
    g: Group,
    k: usize,
    xs: &mut [u32],
    ys: &mut [u32],
    sums: &mut [u32],
) -> bool
    requires { ((all_fit (length table.now) (handles g) ≡ true) × (elements_of (handles g) ≤ 4294967295)) × Ready k xs.old ys.old sums.old }
    ensures { result ≡ true → Gathered PartQuestion.Compose table.now g k xs.old ys.old sums.new }
{
    let mut dx = [0; 64];
    let mut dy = [0; 64];
    let mut ds = [0; 64];
    let c = group_handles::inner::listed(g);
    let mut stride: u32 = 1;
    for f in 0..c {
        let h = g.factors[f];
        let n = h.elements;
        cut(n, k, xs, &mut dx);
        cut(n, k, ys, &mut dy);
        let s = egg::inner::part(&table[..], h);
        if !lists_walks::inner::products(s, h.generators, n, &dx[..k], &dy[..k], &mut ds) {
            return false;
        }
        add(stride, k, &ds, sums);
        stride *= n;
    }
    true
}

// The same for inverses, as `inverse_digits` does for one element.
fn inverses_in_turn(table: &[u32], g: Group, k: usize, xs: &mut [u32], sums: &mut [u32]) -> bool
    requires { ((all_fit (length table.now) (handles g) ≡ true) × (elements_of (handles g) ≤ 4294967295)) × Ready k xs.old xs.old sums.old }
    ensures { result ≡ true → Gathered PartQuestion.Inverse table.now g k xs.old [] sums.new }
{
    let c = group_handles::inner::listed(g);
    let mut stride: u32 = 1;
    for f in 0..c {
        let h = g.factors[f];
        let n = h.elements;
        let s = egg::inner::part(&table[..], h);
        if !invert(s, h.generators, n, stride, k, xs, sums) {
            return false;
        }
        stride *= n;
    }
    true
}

fn compose_chunk(
    table: &[u32],
    g: Group,
    elements: u32,
    a: &[u32],
    b: &[u32],
    results: &mut [u32],
) -> bool
    requires { Sound (length table.now) g elements × ((length b.now ≡ length a.now) × ((length results.old ≡ length a.now) × (length a.now ≤ 64))) }
    ensures { result ≡ true → AllRight (length a.now) (compose_at table.now g a.now b.now) results.new }
{
    let mut xs = [0; 64];
    let mut ys = [0; 64];
    if !copy_below(elements, &a[..], &mut xs) {
        return false;
    }
    if !copy_below(elements, &b[..], &mut ys) {
        return false;
    }
    egg::inner::clear(results);
    factors_in_turn(&table[..], g, a.len(), &mut xs, &mut ys, results)
}

fn inverse_chunk(table: &[u32], g: Group, elements: u32, a: &[u32], results: &mut [u32]) -> bool
    requires { Sound (length table.now) g elements × ((length results.old ≡ length a.now) × (length a.now ≤ 64)) }
    ensures { result ≡ true → AllRight (length a.now) (inverse_at table.now g a.now) results.new }
{
    let mut xs = [0; 64];
    if !copy_below(elements, &a[..], &mut xs) {
        return false;
    }
    egg::inner::clear(results);
    inverses_in_turn(&table[..], g, a.len(), &mut xs, results)
}

pub fn in_chunks(
    table: &[u32],
    g: Group,
    elements: u32,
    a: &[u32],
    b: &[u32],
    results: &mut [u32],
) -> bool
    requires { Sound (length table.now) g elements × ((length b.now ≡ length a.now) × (length a.now ≤ length results.old)) }
    ensures { result ≡ true → AllRight (length a.now) (compose_at table.now g a.now b.now) results.new }
{
    let mut at: usize = 0;
    // Counted by hand: a turn takes a chunk.
    while at < a.len() {
        let end = lists::inner::chunk_end(at, a.len(), 64);
        if !compose_chunk(
            &table[..],
            g,
            elements,
            &a[at..end],
            &b[at..end],
            &mut results[at..end],
        ) {
            return false;
        }
        at = end;
    }
    true
}

pub fn inverses_in_chunks(
    table: &[u32],
    g: Group,
    elements: u32,
    a: &[u32],
    results: &mut [u32],
) -> bool
    requires { Sound (length table.now) g elements × (length a.now ≤ length results.old) }
    ensures { result ≡ true → AllRight (length a.now) (inverse_at table.now g a.now) results.new }
{
    let mut at: usize = 0;
    // Counted by hand: a turn takes a chunk.
    while at < a.len() {
        let end = lists::inner::chunk_end(at, a.len(), 64);
        if !inverse_chunk(&table[..], g, elements, &a[at..end], &mut results[at..end]) {
            return false;
        }
        at = end;
    }
    true
}
