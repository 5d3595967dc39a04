// Products at many places by four walks side by side. Where one walk alone waits for the row that it reads, four have four rows
// under way at once. Each is in a lane; a lane that has come to the end of its walk stores the product and takes the next place.
// Between these, all four go back five letters in step, without a branch that depends on the lane.
ghost use Rattle.std.specs.Prelude.{◌≡◌, true, false, ◌+◌, ◌*◌, ◌-◌, ◌/◌, ◌<◌, ◌≤◌, length, get_or};
ghost use Rattle.factor_questions.specs.Walks.{compose_in};
ghost use Rattle.lists_walks.specs.Products.{Products};
ghost use Rattle.lists_walks.specs.Letters.{EachOf, Stored, LetterBack, CellBack};
ghost use Rattle.lists_walks.specs.Lanes.{LanesReady, Walking, Standing, lane_of, Finished, Taking, Took, Open, AllFar, Settled, AllForward, SomeLive, NoneLive};

use egg::GroupElementId;

// One walk. It is to the product at `place`, and idle where that is the lists' length. It has come to the element that is stored
// as y, `left` letters are left, the next of them in the row of `at`, and at the end the inverse is wanted or the element itself.
#[derive(Clone, Copy)]
pub struct Lane {
    pub place: usize,
    pub y: u32,
    pub at: u32,
    pub left: u32,
    pub inverted: bool,
}

// A lane, and the next place that no lane has had yet. Where not `fine`, a number was out of range, and the rest means nothing.
#[derive(Clone, Copy)]
pub struct Taken {
    pub lane: Lane,
    pub next: usize,
    pub fine: bool,
}

// The four lanes, and the same.
#[derive(Clone, Copy)]
pub struct FourLanes {
    pub p: Lane,
    pub q: Lane,
    pub r: Lane,
    pub t: Lane,
    pub next: usize,
    pub fine: bool,
}

// A number for each lane.
#[derive(Clone, Copy)]
pub struct Four {
    pub p: u32,
    pub q: u32,
    pub r: u32,
    pub t: u32,
}

// An idle lane walks as the others do, from the identity by the letters 0 of the identity's own row, and what it comes to is not
// looked at.
fn idle(k: usize, left: u32) -> Lane
    ensures { result ≡ lane_of k 1 0 left false }
{
    Lane {
        place: k,
        y: 1,
        at: 0,
        left,
        inverted: false,
    }
}

fn failed(k: usize) -> Taken
    ensures { result.fine ≡ false }
{
    Taken {
        lane: idle(k, 0),
        next: k,
        fine: false,
    }
}

// The number of the product of two elements; the count where it is refused. (`compose_elements` comes to the same, as an answer.
// That `product_number` is called here too keeps it apart from that, which is then put in line wherever somebody asks.)
pub fn number(s: &[u32], n: u8, count: u32, a: GroupElementId, b: GroupElementId) -> u32
    ensures { result < count → compose_in s.now n count a.0 b.0 ≡ Ok (record { 0 = result }) }
{
    let x = factor_compose::inner::product_number(&s[..], n, count, a, b);
    if x < count {
        return x;
    }
    match factor_questions::inner::compose_with_care(&s[..], n, count, a, b) {
        Err(_) => count,
        Ok(y) => y.0,
    }
}

// Finds the product at the next place and stores it. The lane is then idle with no letters left, so that it takes another place.
fn take_now(
    s: &[u32],
    n: u8,
    count: u32,
    a: &[u32],
    b: &[u32],
    next: usize,
    results: &mut [u32],
) -> Taken
    requires { (LanesReady s.now n count a.now b.now results.old) × ((next < length a.now) × ((get_or a.now next 0 < count) × (get_or b.now next 0 < count))) }
    ensures { result.fine ≡ true → Taking s.now n count a.now b.now next results.old result.lane result.next results.new }
{
    let first = a[next];
    let second = b[next];
    let x = number(
        &s[..],
        n,
        count,
        GroupElementId(first),
        GroupElementId(second),
    );
    if count <= x {
        return failed(a.len());
    }
    results[next] = x;
    let lane = idle(a.len(), 0);
    let after = next + 1;
    Taken {
        lane,
        next: after,
        fine: true,
    }
}

// Takes the next place, for a walk where there is a way: for a word that is short, or shorter than its inverse's, there is none.
// Where no place is left the lane is idle for long.
fn take(
    s: &[u32],
    n: u8,
    count: u32,
    a: &[u32],
    b: &[u32],
    next: usize,
    results: &mut [u32],
) -> Taken
    requires { (LanesReady s.now n count a.now b.now results.old) × (next ≤ length a.now) }
    ensures { result.fine ≡ true → Taking s.now n count a.now b.now next results.old result.lane result.next results.new }
{
    if a.len() <= next {
        let lane = idle(a.len(), 4096);
        return Taken {
            lane,
            next,
            fine: true,
        };
    }
    let first = a[next];
    let second = b[next];
    if count <= first {
        return failed(a.len());
    }
    if count <= second {
        return failed(a.len());
    }
    let len = factor_quick_walks::inner::recorded(s, n, count, GroupElementId(second), 2);
    let way = factor_compose::inner::route(s, n, count, first, second, len);
    if !way.found {
        return take_now(s, n, count, a, b, next, results);
    }
    let y = way.from + 1;
    let after = next + 1;
    let lane = Lane {
        place: next,
        y,
        at: way.word,
        left: way.letters,
        inverted: way.inverted,
    };
    Taken {
        lane,
        next: after,
        fine: true,
    }
}

// Walks a lane's last letters, which all stand in one row, and stores the product at its place; of an idle lane nothing.
fn finish(
    s: &[u32],
    n: u8,
    count: u32,
    a: &[u32],
    b: &[u32],
    lane: Lane,
    results: &mut [u32],
) -> bool
    requires { (LanesReady s.now n count a.now b.now results.old) × ((Walking s.now n count a.now b.now lane) × (lane.left ≤ 5)) }
    ensures { result ≡ true → Finished s.now n count a.now b.now lane results.old results.new }
{
    let place = lane.place;
    if a.len() <= place {
        return true;
    }
    let c = factor_quick_walks::inner::recorded(s, n, count, GroupElementId(lane.at), 1);
    let y = factor_quick_walks::inner::retrace_letters(s, n, count, lane.y, c, lane.left, 1);
    if y == 0 {
        return false;
    }
    let z = factor_quick_walks::inner::recorded(s, n, count, GroupElementId(y - 1), 3);
    if count <= z {
        return false;
    }
    results[place] = egg::inner::chosen(lane.inverted, z, y - 1);
    true
}

// Ends a lane's walk and takes places for it until it has more than five letters to go. The lane comes as its numbers: as a struct
// it would have to be in memory before every test of whether this is called, which takes a sixth of the time.
fn settle(
    s: &[u32],
    n: u8,
    count: u32,
    a: &[u32],
    b: &[u32],
    place: usize,
    y: u32,
    at: u32,
    left: u32,
    inverted: bool,
    start: usize,
    results: &mut [u32],
) -> Taken
    requires { (LanesReady s.now n count a.now b.now results.old) × ((start ≤ length a.now) × Standing s.now n count a.now b.now start (lane_of place y at left inverted)) }
    ensures { result.fine ≡ true → (Took s.now n count a.now b.now (lane_of place y at left inverted) start results.old result.lane result.next results.new) × (5 < result.lane.left) }
{
    let mut lane = Lane {
        place,
        y,
        at,
        left,
        inverted,
    };
    let mut next = start;
    while lane.left <= 5 {
        if !finish(s, n, count, a, b, lane, results) {
            return failed(next);
        }
        let got = take(s, n, count, a, b, next, results);
        if !got.fine {
            return failed(next);
        }
        lane = got.lane;
        next = got.next;
    }
    Taken {
        lane,
        next,
        fine: true,
    }
}

// A lane that has more than five letters to go stays as it is. This test is small and apart, so that it is put in line.
fn settled(
    s: &[u32],
    n: u8,
    count: u32,
    a: &[u32],
    b: &[u32],
    lane: Lane,
    next: usize,
    results: &mut [u32],
) -> Taken
    requires { (LanesReady s.now n count a.now b.now results.old) × ((next ≤ length a.now) × Standing s.now n count a.now b.now next lane) }
    ensures { result.fine ≡ true → (Took s.now n count a.now b.now lane next results.old result.lane result.next results.new) × (5 < result.lane.left) }
{
    let left = lane.left;
    if 5 < left {
        return Taken {
            lane,
            next,
            fine: true,
        };
    }
    settle(
        &s[..],
        n,
        count,
        &a[..],
        &b[..],
        lane.place,
        lane.y,
        lane.at,
        left,
        lane.inverted,
        next,
        results,
    )
}

fn broken(w: FourLanes) -> FourLanes
    ensures { result.fine ≡ false }
{
    let mut v = w;
    v.fine = false;
    v
}

// One lane after the other.
fn settle_all(
    s: &[u32],
    n: u8,
    count: u32,
    a: &[u32],
    b: &[u32],
    w: FourLanes,
    results: &mut [u32],
) -> FourLanes
    requires { (LanesReady s.now n count a.now b.now results.old) × Open s.now n count a.now b.now w results.old }
    ensures { result.fine ≡ true → Settled s.now n count a.now b.now w result results.new }
{
    let one = settled(s, n, count, a, b, w.p, w.next, results);
    if !one.fine {
        return broken(w);
    }
    let two = settled(s, n, count, a, b, w.q, one.next, results);
    if !two.fine {
        return broken(w);
    }
    let three = settled(s, n, count, a, b, w.r, two.next, results);
    if !three.fine {
        return broken(w);
    }
    let four = settled(s, n, count, a, b, w.t, three.next, results);
    if !four.fine {
        return broken(w);
    }
    FourLanes {
        p: one.lane,
        q: two.lane,
        r: three.lane,
        t: four.lane,
        next: four.next,
        fine: true,
    }
}

// Back by the lowest letter of a cell, from the element that is stored as y to what is stored for another; 0 where a number is
// out of range.
fn letter_back(s: &[u32], n: u8, count: u32, y: u32, c: u32) -> u32
    requires { (count * (2 * n + 4) ≤ length s.now) × Stored count y }
    ensures { 0 < result → LetterBack s.now n count y c result }
{
    let letter = c % 8;
    if (n as u32) <= letter {
        return 0;
    }
    let x = factor_quick_walks::inner::stored_step(s, n, count, n, y, letter);
    if count < x {
        return 0;
    }
    x
}

// The same in four lanes. One 0 makes all of it worth nothing, and the first is 0 then.
fn four_back(s: &[u32], n: u8, count: u32, y: Four, c: Four) -> Four
    requires { (count * (2 * n + 4) ≤ length s.now) × EachOf (λ of. Stored count (of y)) }
    ensures { 0 < result.p → EachOf (λ of. LetterBack s.now n count (of y) (of c) (of result)) }
{
    let none = Four {
        p: 0,
        q: 0,
        r: 0,
        t: 0,
    };
    let p = letter_back(s, n, count, y.p, c.p);
    if p == 0 {
        return none;
    }
    let q = letter_back(s, n, count, y.q, c.q);
    if q == 0 {
        return none;
    }
    let r = letter_back(s, n, count, y.r, c.r);
    if r == 0 {
        return none;
    }
    let t = letter_back(s, n, count, y.t, c.t);
    if t == 0 {
        return none;
    }
    Four { p, q, r, t }
}

// Whether an element stands above the letters of each cell.
fn all_below(count: u32, c: Four) -> bool
    ensures { result ≡ true → EachOf (λ of. of c < count) }
{
    if count <= c.p {
        return false;
    }
    if count <= c.q {
        return false;
    }
    if count <= c.r {
        return false;
    }
    c.t < count
}

// Back by all five letters of each cell, in step.
fn five_back(s: &[u32], n: u8, count: u32, from: Four, cells: Four) -> Four
    requires { (count * (2 * n + 4) ≤ length s.now) × EachOf (λ of. Stored count (of from)) }
    ensures { 0 < result.p → EachOf (λ of. CellBack s.now n count 5 (of from) (of cells) (of result)) }
{
    let mut y = from;
    let mut c = cells;
    for _ in 0..5u32 {
        y = four_back(s, n, count, y, c);
        if y.p == 0 {
            return y;
        }
        c = Four {
            p: c.p / 8,
            q: c.q / 8,
            r: c.r / 8,
            t: c.t / 8,
        };
    }
    if !all_below(count, c) {
        y.p = 0;
        return y;
    }
    y
}

// A lane after five letters of the cell c have led to what is stored as y.
fn onward(l: Lane, y: u32, c: u32) -> Lane
    requires { 5 < l.left }
    ensures { result ≡ lane_of l.place y (c / 32768) (l.left - 5) l.inverted }
{
    Lane {
        place: l.place,
        y,
        at: c / 32768,
        left: l.left - 5,
        inverted: l.inverted,
    }
}

// Five letters on in every lane, where a lane is live.
fn five_ahead(s: &[u32], n: u8, count: u32, w: FourLanes, live: bool) -> FourLanes
    requires { (count * (2 * n + 4) ≤ length s.now) × AllFar count w }
    ensures { result.fine ≡ true → AllForward s.now n count live w result }
{
    if !live {
        return w;
    }
    let p = w.p;
    let q = w.q;
    let r = w.r;
    let t = w.t;
    let cells = Four {
        p: factor_quick_walks::inner::recorded(s, n, count, GroupElementId(p.at), 1),
        q: factor_quick_walks::inner::recorded(s, n, count, GroupElementId(q.at), 1),
        r: factor_quick_walks::inner::recorded(s, n, count, GroupElementId(r.at), 1),
        t: factor_quick_walks::inner::recorded(s, n, count, GroupElementId(t.at), 1),
    };
    let from = Four {
        p: p.y,
        q: q.y,
        r: r.y,
        t: t.y,
    };
    let y = five_back(s, n, count, from, cells);
    if y.p == 0 {
        return broken(w);
    }
    FourLanes {
        p: onward(p, y.p, cells.p),
        q: onward(q, y.q, cells.q),
        r: onward(r, y.r, cells.r),
        t: onward(t, y.t, cells.t),
        next: w.next,
        fine: true,
    }
}

fn live(k: usize, w: FourLanes) -> bool
    ensures { (result ≡ true → SomeLive k w) × (result ≡ false → NoneLive k w) }
{
    let p = w.p;
    if p.place < k {
        return true;
    }
    let q = w.q;
    if q.place < k {
        return true;
    }
    let r = w.r;
    if r.place < k {
        return true;
    }
    let t = w.t;
    t.place < k
}

// All places, by four lanes, from those that they have already. Each function of the loop is called here only, and so put in line.
fn lanes(
    s: &[u32],
    n: u8,
    count: u32,
    a: &[u32],
    b: &[u32],
    start: FourLanes,
    results: &mut [u32],
) -> bool
    requires { (LanesReady s.now n count a.now b.now results.old) × Open s.now n count a.now b.now start results.old }
    ensures { result ≡ true → Products s.now n count a.now b.now results.new }
{
    let mut w = start;
    let mut more = true;
    while more {
        let ready = settle_all(s, n, count, a, b, w, results);
        if !ready.fine {
            return false;
        }
        more = live(a.len(), ready);
        w = five_ahead(s, n, count, ready, more);
        if !w.fine {
            return false;
        }
    }
    true
}

// All places, by four lanes. The first takes its place here: `settle` has then two callers, so that it is not put in line in
// `settled`, which would be too long to be put in line itself.
fn side_by_side(s: &[u32], n: u8, count: u32, a: &[u32], b: &[u32], results: &mut [u32]) -> bool
    requires { LanesReady s.now n count a.now b.now results.old }
    ensures { result ≡ true → Products s.now n count a.now b.now results.new }
{
    let one = settle(s, n, count, a, b, a.len(), 1, 0, 0, false, 0, results);
    if !one.fine {
        return false;
    }
    let q = idle(a.len(), 0);
    let w = FourLanes {
        p: one.lane,
        q,
        r: q,
        t: q,
        next: one.next,
        fine: true,
    };
    lanes(s, n, count, a, b, w, results)
}

// Whether four lanes are quicker than one walk after another: where there are places for all of them, and the rows are so many that
// a walk waits for each.
pub fn worth_lanes(count: u32, places: usize) -> bool {
    if count <= 2048 {
        return false;
    }
    4 <= places
}

// All places, one after another.
fn one_after_another(
    s: &[u32],
    n: u8,
    count: u32,
    a: &[u32],
    b: &[u32],
    results: &mut [u32],
) -> bool
    requires { LanesReady s.now n count a.now b.now results.old }
    ensures { result ≡ true → Products s.now n count a.now b.now results.new }
{
    for i in 0..a.len() {
        let first = a[i];
        let second = b[i];
        if count <= first {
            return false;
        }
        if count <= second {
            return false;
        }
        let x = number(
            &s[..],
            n,
            count,
            GroupElementId(first),
            GroupElementId(second),
        );
        if count <= x {
            return false;
        }
        results[i] = x;
    }
    true
}

// The products of a and b, place by place, to the start of `results`: whether each was found. Where one was not, which may be for a number out of range or only
// because the quick walks do not serve, `results` may hold anything.
pub fn products(s: &[u32], n: u8, count: u32, a: &[u32], b: &[u32], results: &mut [u32]) -> bool
    requires { (length b.now ≡ length a.now) × (length a.now ≤ length results.old) }
    ensures { result ≡ true → Products s.now n count a.now b.now results.new }
{
    if !factor_compose::inner::rows_within(s, n, count) {
        return false;
    }
    if count == 0 {
        return false;
    }
    if !worth_lanes(count, a.len()) {
        return one_after_another(&s[..], n, count, &a[..], &b[..], results);
    }
    side_by_side(&s[..], n, count, &a[..], &b[..], results)
}
