// The pass over an accepted table that writes five letters into the cell of each last generator. Such a number is
// called a hop: who walks a word back goes five letters with it.
ghost use Rattle.std.specs.Prelude.{◌≡◌};
ghost use Rattle.build_word_cells.specs.Hops.{hop_from, with_hops};

use egg::GroupElementId;

// The last five letters of the word of e, and the element at which it ends without them, in one number.
fn hop_of(t: &[u32], n: u8, e: GroupElementId) -> usize
    ensures { result ≡ hop_from 5 t.now n e.0 }
{
    let a = egg::inner::last(t, n, e) as usize;
    let p = GroupElementId(egg::inner::parent(t, n, e));
    let b = egg::inner::last(t, n, p) as usize;
    let q = GroupElementId(egg::inner::parent(t, n, p));
    let c = egg::inner::last(t, n, q) as usize;
    let r = GroupElementId(egg::inner::parent(t, n, q));
    let d = egg::inner::last(t, n, r) as usize;
    let s = GroupElementId(egg::inner::parent(t, n, r));
    let f = egg::inner::last(t, n, s) as usize;
    let before = (egg::inner::parent(t, n, s) % 65536) as usize;
    a + 8 * (b + 8 * (c + 8 * (d + 8 * (f + 8 * before))))
}

// Writes these numbers for all elements. Parents and last letters stay as they are, so that the order of the elements
// does not matter.
pub fn fill_hops(t: &mut [u32], n: u8, count: u32)
    ensures { t.new ≡ with_hops count t.old n }
{
    for e in (0..count).rev() {
        let h = hop_of(t, n, GroupElementId(e));
        egg::inner::put(t, egg::inner::hop_at(n, GroupElementId(e)), h);
    }
}
