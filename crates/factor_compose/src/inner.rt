// Products and conjugates by as few reads as they can be had. They are found by the quick walks of `factor_quick_walks`
// where every number that is looked at is in range, nothing stands above a word's first letter and, for a second element
// whose word has more than five letters, its inverse has no longer word; else as `factor_questions` defines them.
ghost use Rattle.std.specs.Prelude.{◌≡◌, true, false, ◌+◌, ◌*◌, ◌<◌, ◌≤◌, length};
ghost use Rattle.egg.specs.Table.{length_of};
ghost use Rattle.factor_questions.specs.Walks.{compose_in, conjugate_in};
ghost use Rattle.factor_compose.specs.Routes.{Routed};

use egg::{GroupElementId, Refusal};

// Answers whether the rows of all elements stand in the stretch.
pub fn rows_within(s: &[u32], n: u8, count: u32) -> bool
    ensures { result ≡ true → count * (2 * n + 4) ≤ length s.now }
{
    (count as usize) * egg::inner::width(n) <= s.len()
}

// The way to a product whose second word has more than five letters: back along `letters` letters of the word of `word`,
// from the element `from`, to the product or, where `inverted`, to its inverse. It is `found` where every number that was
// looked at is in range and the inverse of the second has no longer word.
#[derive(Clone, Copy)]
pub struct Way {
    pub found: bool,
    pub inverted: bool,
    pub letters: u32,
    pub from: u32,
    pub word: u32,
}

fn no_way() -> Way
    ensures { result.found ≡ false }
{
    Way {
        found: false,
        inverted: false,
        letters: 0,
        from: 0,
        word: 0,
    }
}

// Chooses the way to a·b, where b's word has `len` letters; five and fewer stand in its own row, and need none. Both ways
// are worked out, so that they join without a branch, which a processor would guess wrong every other time.
pub fn route(s: &[u32], n: u8, count: u32, a: u32, b: u32, len: u32) -> Way
    requires { (count * (2 * n + 4) ≤ length s.now) × ((a < count) × ((b < count) × (len ≡ length_of s.now n b))) }
    ensures { result.found ≡ true → Routed s.now n count a b result.inverted result.letters result.from result.word }
{
    if len < 6 {
        return no_way();
    }
    if 4096 < len {
        return no_way();
    }
    let i = factor_quick_walks::inner::recorded(s, n, count, GroupElementId(b), 3);
    if count <= i {
        return no_way();
    }
    let own = factor_quick_walks::inner::recorded(s, n, count, GroupElementId(a), 2);
    if 4096 < own {
        return no_way();
    }
    let other = factor_quick_walks::inner::recorded(s, n, count, GroupElementId(i), 2);
    if len < other {
        return no_way();
    }
    let inverted = factor_quick_walks::inner::fewer(own, len);
    Way {
        found: true,
        inverted,
        letters: egg::inner::chosen(inverted, own, other),
        from: egg::inner::chosen(inverted, i, a),
        word: egg::inner::chosen(inverted, a, i),
    }
}

// The number of a·b, where the quick walks find it; else the count, and then `compose_with_care` has the answer. A word
// of at most five letters stands in its own row, and no other is waited for. A longer one is walked back by its route, and
// an inverse is read at the end of both ways, so that they join without a branch. (`&s[..]` is passed on to the walk back,
// and not `s`: that call is not put in line, and a slice that is itself passed on would be copied at the start, for which
// short words too would wait, up to twice their time.)
pub fn product_number(s: &[u32], n: u8, count: u32, a: GroupElementId, b: GroupElementId) -> u32
    ensures { result < count → compose_in s.now n count a.0 b.0 ≡ Ok (record { 0 = result }) }
{
    if !rows_within(s, n, count) {
        return count;
    }
    if count <= a.0 {
        return count;
    }
    if count <= b.0 {
        return count;
    }
    let len = factor_quick_walks::inner::recorded(s, n, count, b, 2);
    if len <= 5 {
        let c = factor_quick_walks::inner::recorded(s, n, count, b, 1);
        return factor_quick_walks::inner::advance(s, n, count, a, c, len);
    }
    let way = route(s, n, count, a.0, b.0, len);
    if !way.found {
        return count;
    }
    let x = factor_quick_walks::inner::retrace(
        &s[..],
        n,
        count,
        GroupElementId(way.from),
        GroupElementId(way.word),
        way.letters,
    );
    if count <= x {
        return count;
    }
    let z = factor_quick_walks::inner::recorded(s, n, count, GroupElementId(x), 3);
    if count <= z {
        return count;
    }
    egg::inner::chosen(way.inverted, z, x)
}

// The product a·b: quick where it can be, else with care.
pub fn compose_elements(
    s: &[u32],
    n: u8,
    count: u32,
    a: GroupElementId,
    b: GroupElementId,
) -> Result<GroupElementId, Refusal>
    ensures { result ≡ compose_in s.now n count a.0 b.0 }
{
    let x = product_number(&s[..], n, count, a, b);
    if x < count {
        return Ok(GroupElementId(x));
    }
    factor_questions::inner::compose_with_care(&s[..], n, count, a, b)
}

// The number of a·b·a⁻¹, or the count, as `product_number` gives a product.
fn conjugate_number(s: &[u32], n: u8, count: u32, a: GroupElementId, b: GroupElementId) -> u32
    ensures { result < count → conjugate_in s.now n count a.0 b.0 ≡ Ok (record { 0 = result }) }
{
    let c = product_number(&s[..], n, count, a, b);
    if count <= c {
        return count;
    }
    let i = egg::inner::get(s, egg::inner::inverse_at(n, a));
    if count <= i {
        return count;
    }
    product_number(&s[..], n, count, GroupElementId(c), GroupElementId(i))
}

// The conjugate a·b·a⁻¹: quick where it can be, else with care.
pub fn conjugate_elements(
    s: &[u32],
    n: u8,
    count: u32,
    a: GroupElementId,
    b: GroupElementId,
) -> Result<GroupElementId, Refusal>
    ensures { result ≡ conjugate_in s.now n count a.0 b.0 }
{
    let x = conjugate_number(&s[..], n, count, a, b);
    if x < count {
        return Ok(GroupElementId(x));
    }
    factor_questions::inner::conjugate_with_care(&s[..], n, count, a, b)
}
