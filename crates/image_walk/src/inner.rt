// Walks a word on an image's successors.
ghost use Rattle.std.specs.Prelude.{◌≡◌};
ghost use Rattle.build_reading.specs.Reading.{composed_at};
ghost use Rattle.image_cells.specs.Cells.{halves};
ghost use Rattle.image_walk.specs.Walked.{letters_below, follow_rows};

use egg::{GeneratorId, GroupElementId};

// Whether each letter is a generator.
pub fn letters_below(n: u8, word: &[u8]) -> bool
    ensures { result ≡ letters_below n word.now }
{
    for &g in word {
        if n <= g {
            return false;
        }
    }
    true
}

// Answers the number stored for e and g, which may be beyond the elements.
fn stored(rows: &[u8], n: u8, e: GroupElementId, g: GeneratorId) -> u32
    ensures { result ≡ composed_at (halves rows.now) n e.0 g.0 }
{
    image_cells::inner::half(rows, (e.0 as usize) * (n as usize) + (g.0 as usize))
}

// Answers the element reached, or 65,536 + 17 where a number read is no element.
pub fn follow(rows: &[u8], n: u8, count: u32, start: GroupElementId, word: &[u8]) -> u32
    ensures { result ≡ follow_rows (halves rows.now) n count start.0 word.now }
{
    let mut x = start.0;
    for &g in word {
        let y = stored(rows, n, GroupElementId(x), GeneratorId(g));
        if count <= y {
            return 65553;
        }
        x = y;
    }
    x
}
