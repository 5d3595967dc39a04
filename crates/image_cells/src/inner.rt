// Reads and writes numbers in a lent stretch of bytes. They are total as those of `egg`: a read past the end is 0, a write there does nothing.
ghost use Rattle.std.specs.Prelude.{◌≡◌, ◌+◌, ◌≤◌, length, get_or, replicate};
ghost use Rattle.egg.specs.Table.{put_at};
ghost use Rattle.image_cells.specs.Cells.{spell4, cells, stored4, spell2, halves};

// The number that four bytes spell, the lowest first.
pub fn spell(a: u8, b: u8, c: u8, d: u8) -> u32
    ensures { result ≡ spell4 a b c d }
{
    (a as u32) + 256 * (b as u32) + 65536 * (c as u32) + 16777216 * (d as u32)
}

// The number in cell i, and 0 past the end.
pub fn get(s: &[u8], i: usize) -> u32
    ensures { result ≡ get_or (cells s.now) i 0 }
{
    if i < s.len() / 4 {
        let at = 4 * i;
        spell(s[at], s[at + 1], s[at + 2], s[at + 3])
    } else {
        0
    }
}

// The number that two bytes spell, the highest first.
pub fn spell_half(a: u8, b: u8) -> u32
    ensures { result ≡ spell2 a b }
{
    256 * (a as u32) + (b as u32)
}

// The i-th number of two bytes, the highest first, and 0 past the end.
pub fn half(s: &[u8], i: usize) -> u32
    ensures { result ≡ get_or (halves s.now) i 0 }
{
    if i < s.len() / 2 {
        let at = 2 * i;
        spell_half(s[at], s[at + 1])
    } else {
        0
    }
}

// Stores four bytes from place `at` on.
fn store(s: &mut [u8], at: usize, a: u8, b: u8, c: u8, d: u8)
    requires { at + 4 ≤ length s.old }
    ensures { s.new ≡ stored4 s.old at a b c d }
{
    s[at] = a;
    s[at + 1] = b;
    s[at + 2] = c;
    s[at + 3] = d;
}

// Stores v in cell i; nothing past the end, and nothing where v has more than 32 bits.
pub fn put(s: &mut [u8], i: usize, v: usize)
    ensures { cells s.new ≡ put_at (cells s.old) i v }
{
    if i < s.len() / 4 {
        if v < 4294967296 {
            let p = v / 256;
            let q = p / 256;
            store(
                s,
                4 * i,
                (v % 256) as u8,
                (p % 256) as u8,
                (q % 256) as u8,
                (q / 256) as u8,
            );
        }
    }
}

// Writes zero bytes, which spell zero cells.
pub fn clear(s: &mut [u8])
    ensures { s.new ≡ replicate (length s.old) 0 }
{
    s.fill(0);
}
