// What every question about a factor tests first: its handle and its element arguments.
ghost use Rattle.std.specs.Prelude.{◌≡◌, length};
ghost use Rattle.factor.specs.Questions.{admits};

use egg::{Factor, GroupElementId, Refusal};

// Refuses 17 for a handle that does not fit, then 14 for the first (place 0) or the second (place 1) of two elements
// that the factor does not have. A question about fewer elements takes the identity for the others, which is always
// there.
pub fn admit(table: &[u32], f: Factor, a: GroupElementId, b: GroupElementId) -> Result<(), Refusal>
    ensures { result ≡ admits (length table.now) f a.0 b.0 }
{
    if !egg::fits(table, f) {
        return Err(Refusal::Unreadable);
    }
    if f.elements <= a.0 {
        return Err(Refusal::ArgumentOutside(0));
    }
    if f.elements <= b.0 {
        return Err(Refusal::ArgumentOutside(1));
    }
    Ok(())
}
