// Facts of the enumeration, and what follows from them. A fact is a step that is newly known. Facts are kept by their
// places in the work stretch, on a stack that is a list through the places themselves, since a place becomes a fact
// once at most.
ghost use Rattle.std.specs.Prelude.{◌≡◌, ◌<◌};
ghost use Rattle.enumeration_wake.specs.Waking.{state, wakes_all};
ghost use Rattle.enumeration_facts.specs.Facts.{emptied, updated, settled};

use enumeration_rows::inner::SideOfGap;

// Wakes the copies of one list in order, as many as it counts. Answers the link of the stack's top.
pub fn wake_all(
    t: &mut [u32],
    w: &mut [u32],
    n: u8,
    first: u32,
    count: u32,
    side: SideOfGap,
    top: u32,
) -> u32
    ensures { state t.new w.new result ≡ wakes_all count n first side (state t.old w.old top) }
{
    let mut at = first;
    let mut left = count;
    let mut top = top;
    // Counted by hand: a turn wakes one copy, and may move on some that stand alike.
    while left != 0 {
        if at == 0 {
            return top;
        }
        let place = (at - 1) as usize;
        let next = egg::inner::get(&w[..], place + 5);
        let before = enumeration_rows::inner::read_row(&w[..], place);
        let after = enumeration_fill::inner::fill(&t[..], n, before);
        top = enumeration_wake::inner::wake(t, w, n, place, side, after, top);
        let rest = enumeration_wake::inner::carry(
            &t[..],
            w,
            n,
            next,
            left - 1,
            side,
            before,
            after,
            top,
        );
        at = rest.at;
        left = rest.left;
    }
    top
}

// 000's `mem::take`: empties both lists of a place, and its link of the fact stack.
pub fn empty(w: &mut [u32], place: usize)
    requires { place < 36028797018963968 }
    ensures { w.new ≡ emptied w.old place }
{
    egg::inner::put(w, place, 0);
    egg::inner::put(w, place + 1, 0);
    egg::inner::put(w, place + 2, 0);
    egg::inner::put(w, place + 3, 0);
    egg::inner::put(w, place + 4, 0);
    egg::inner::put(w, place + 5, 0);
    egg::inner::put(w, place + 6, 0);
}

// 000's `update_with_fact`: takes both lists of a place, then wakes the left copies, then the right ones. Answers the
// link of the stack's top.
pub fn update_with_fact(t: &mut [u32], w: &mut [u32], n: u8, place: usize, top: u32) -> u32
    requires { place < 36028797018963968 }
    ensures { state t.new w.new result ≡ updated n place (state t.old w.old top) }
{
    let lefts = egg::inner::get(&w[..], place);
    let left_count = egg::inner::get(&w[..], place + 2);
    let rights = egg::inner::get(&w[..], place + 3);
    let right_count = egg::inner::get(&w[..], place + 5);
    empty(w, place);
    let after_lefts = wake_all(t, w, n, lefts, left_count, SideOfGap::Left, top);
    wake_all(t, w, n, rights, right_count, SideOfGap::Right, after_lefts)
}

// Takes facts from the stack, last in first out, until none is left. A run never has as many facts as there are numbers
// of work.
pub fn settle(t: &mut [u32], w: &mut [u32], n: u8, first: u32) -> u32
    ensures { state t.new w.new result ≡ settled n (state t.old w.old first) }
{
    let mut top = first;
    for _ in 0..w.len() {
        if top == 0 {
            return top;
        }
        let place = (top - 1) as usize;
        let below = egg::inner::get(&w[..], place + 6);
        top = update_with_fact(t, w, n, place, below);
    }
    top
}
