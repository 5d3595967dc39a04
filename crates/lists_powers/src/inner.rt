// Powers over lists of a factor's elements. A power alone squares and multiplies; here the places of a chunk do so in step, each round by one call for all
// the squares and one for all the products, so that the walks of many places are under way at once. A place that needs no product in a round is given one
// with the identity, whose result is not used. Slices are passed on as `&s[..]`, since a slice parameter that is passed on as it is would be copied first.
ghost use Rattle.std.specs.Prelude.{Some, ◌≡◌, true, false, ◌+◌, ◌/◌, ◌^◌, ◌≤◌, ◌<◌, length, replicate};
ghost use Rattle.lists.specs.Passes.{Written};
ghost use Rattle.lists_powers.specs.declared.inner.PowerOf.{PowerOf};
ghost use Rattle.lists_powers.specs.Powers.{Powered};
ghost use Rattle.lists_powers.specs.Rounds.{Base, Bases, Largest, factor_at, kept_at, Raised};

use egg::GroupElementId;

// The element whose power is taken, and by how much.
#[derive(Clone, Copy)]
pub struct PowerOf {
    pub base: u32,
    pub by: u32,
}

// A negative exponent hands on to the inverse. The least has no negation, and is 2^31 of the inverse: the power by 2^30, squared. None where a number is out
// of range.
fn positive(s: &[u32], n: u8, count: u32, a: u32, e: i32) -> Option<PowerOf>
    ensures { (p : PowerOf) → result ≡ Some p → Base s.now n count a e p.base p.by }
{
    if count <= a {
        return None;
    }
    if 0 <= e {
        let up = e as u32;
        return Some(PowerOf { base: a, by: up });
    }
    let back = factor_questions::inner::inverse_in(&s[..], n, count, GroupElementId(a));
    let Ok(b) = back else {
        return None;
    };
    let inverse = b.0;
    if e == -2147483648 {
        return Some(PowerOf {
            base: inverse,
            by: 2147483648,
        });
    }
    let down = (-e) as u32;
    Some(PowerOf {
        base: inverse,
        by: down,
    })
}

fn bases(
    s: &[u32],
    n: u8,
    count: u32,
    a: &[u32],
    exponents: &[i32],
    bs: &mut [u32],
    ks: &mut [u32],
) -> bool
    requires { (length exponents.now ≡ length a.now) × ((length bs.old ≡ length a.now) × (length ks.old ≡ length a.now)) }
    ensures { result ≡ true → Bases s.now n count a.now exponents.now (length a.now) bs.new ks.new }
{
    for i in 0..a.len() {
        let e = lists::inner::exponent(exponents, i);
        let Some(p) = positive(&s[..], n, count, a[i], e) else {
            return false;
        };
        bs[i] = p.base;
        ks[i] = p.by;
    }
    true
}

fn larger(x: u32, y: u32) -> u32
    ensures { (x ≤ result) × (y ≤ result) }
{
    if x < y { y } else { x }
}

fn largest(ks: &[u32]) -> u32
    ensures { Largest ks.now (length ks.now) result }
{
    let mut most = 0;
    for i in 0..ks.len() {
        most = larger(most, ks[i]);
    }
    most
}

// How many rounds an exponent takes: as many as it has bits.
fn bits(k: u32) -> u32
    ensures { (result ≤ 32) × (k / 2 ^ result ≡ 0) }
{
    for j in 0..32 {
        if k >> j == 0 {
            return j;
        }
    }
    32
}

// What the squares are multiplied by in the round of bit j.
fn factors(bs: &[u32], ks: &[u32], j: u32, ms: &mut [u32])
    requires { (j < 32) × ((length ks.now ≡ length bs.now) × (length ms.old ≡ length bs.now)) }
    ensures { Written (length bs.now) (factor_at bs.now ks.now j) ms.new }
{
    for i in 0..bs.len() {
        let m = ks[i] >> j;
        ms[i] = egg::inner::chosen(m % 2 == 0, 0, bs[i]);
    }
}

// The powers after the round of bit j, of the squares ys and their products xs.
fn keep(ks: &[u32], j: u32, ys: &[u32], xs: &mut [u32])
    requires { (j < 32) × ((length ys.now ≡ length ks.now) × (length xs.old ≡ length ks.now)) }
    ensures { Written (length ks.now) (kept_at ks.now j ys.now xs.old) xs.new }
{
    for i in 0..ks.len() {
        let m = ks[i] >> j;
        let x = egg::inner::chosen(m % 2 == 0, ys[i], xs[i]);
        xs[i] = egg::inner::chosen(m == 0, 0, x);
    }
}

// The round of bit j: from the powers by the exponents without their last j + 1 bits to those without their last j.
fn round(
    s: &[u32],
    n: u8,
    count: u32,
    bs: &[u32],
    ks: &[u32],
    j: u32,
    xs: &mut [u32],
    ys: &mut [u32],
    ms: &mut [u32],
) -> bool
    requires { (j < 32) × ((length bs.now ≡ length ks.now) × ((length xs.old ≡ length ks.now) × ((length ys.old ≡ length ks.now) × ((length ms.old ≡ length ks.now) × Raised s.now n count bs.now ks.now (j + 1) xs.old)))) }
    ensures { result ≡ true → Raised s.now n count bs.now ks.now j xs.new }
{
    factors(&bs[..], &ks[..], j, ms);
    if !lists_walks::inner::products(&s[..], n, count, &xs[..], &xs[..], ys) {
        return false;
    }
    if !lists_walks::inner::products(&s[..], n, count, &ys[..], &ms[..], xs) {
        return false;
    }
    keep(&ks[..], j, &ys[..], xs);
    true
}

// The rounds of all bits that any of the exponents has, the highest first; xs holds the identity at each place.
fn rounds(
    s: &[u32],
    n: u8,
    count: u32,
    bs: &[u32],
    ks: &[u32],
    xs: &mut [u32],
    ys: &mut [u32],
    ms: &mut [u32],
) -> bool
    requires { (length bs.now ≡ length ks.now) × ((length xs.old ≡ length ks.now) × ((length ys.old ≡ length ks.now) × ((length ms.old ≡ length ks.now) × (xs.old ≡ replicate (length ks.now) 0)))) }
    ensures { result ≡ true → Raised s.now n count bs.now ks.now 0 xs.new }
{
    for j in (0..bits(largest(&ks[..]))).rev() {
        if !round(&s[..], n, count, &bs[..], &ks[..], j, xs, ys, ms) {
            return false;
        }
    }
    true
}

// A chunk, with lists as long as its own for the bases, the exponents without signs, the squares and what they are multiplied by.
fn powers_by(
    s: &[u32],
    n: u8,
    count: u32,
    a: &[u32],
    exponents: &[i32],
    bs: &mut [u32],
    ks: &mut [u32],
    ys: &mut [u32],
    ms: &mut [u32],
    results: &mut [u32],
) -> bool
    requires { (length exponents.now ≡ length a.now) × ((length bs.old ≡ length a.now) × ((length ks.old ≡ length a.now) × ((length ys.old ≡ length a.now) × ((length ms.old ≡ length a.now) × (length results.old ≡ length a.now))))) }
    ensures { result ≡ true → Powered s.now n count a.now exponents.now results.new }
{
    if !bases(&s[..], n, count, &a[..], &exponents[..], bs, ks) {
        return false;
    }
    egg::inner::clear(results);
    rounds(&s[..], n, count, &bs[..], &ks[..], results, ys, ms)
}

fn chunk(s: &[u32], n: u8, count: u32, a: &[u32], exponents: &[i32], results: &mut [u32]) -> bool
    requires { (length exponents.now ≡ length a.now) × ((length results.old ≡ length a.now) × (length a.now ≤ 64)) }
    ensures { result ≡ true → Powered s.now n count a.now exponents.now results.new }
{
    let mut bs = [0; 64];
    let mut ks = [0; 64];
    let mut ys = [0; 64];
    let mut ms = [0; 64];
    let k = a.len();
    powers_by(
        &s[..],
        n,
        count,
        &a[..],
        &exponents[..],
        &mut bs[..k],
        &mut ks[..k],
        &mut ys[..k],
        &mut ms[..k],
        results,
    )
}

// The powers of a by the exponents, place by place, to the start of `results`: whether each was found. Where one was not, which may be for a number out of
// range or only because the quick walks do not serve, `results` may hold anything. The chunks are short, so that what a round writes is still at hand in the next.
pub fn powers(
    s: &[u32],
    n: u8,
    count: u32,
    a: &[u32],
    exponents: &[i32],
    results: &mut [u32],
) -> bool
    requires { (length exponents.now ≡ length a.now) × (length a.now ≤ length results.old) }
    ensures { result ≡ true → Powered s.now n count a.now exponents.now results.new }
{
    let mut i = 0;
    // Counted by hand: a turn takes a chunk.
    while i < a.len() {
        let end = lists::inner::chunk_end(i, a.len(), 64);
        if !chunk(
            &s[..],
            n,
            count,
            &a[i..end],
            &exponents[i..end],
            &mut results[i..end],
        ) {
            return false;
        }
        i = end;
    }
    true
}
