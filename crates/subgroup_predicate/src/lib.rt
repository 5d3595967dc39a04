// Builds the subgroup that a predicate tells, a lent byte for each element of the overgroup: `from_subgroup_predicate` of subgroup_action.rs.
#![tactic(auto)]

ghost use Rattle.std.specs.Prelude.{◌≡◌};
ghost use Rattle.subgroup_build.specs.Lent.{Subgrouping};
ghost use Rattle.subgroup_predicate.specs.Predicate.{from_predicate};

use egg::Refusal;
use group_handles::Group;
pub use subgroup_build::Subgroup;

pub mod inner;

// Builds the subgroup that the elements generate whose byte in `members` is not 0, and fills its two maps; table and work are lent as for eight
// generators. Refuses in this order: 17 for a handle that does not fit, 15 for an overgroup too large to number, 4 for a room out of range or a short
// buffer, or too few bytes; then the first refusal of a build, or 15 where a ninth generator is needed.
pub fn from_predicate(
    from: &[u32],
    over: Group,
    members: &[u8],
    table: &mut [u32],
    start: usize,
    work: &mut [u32],
    inn: &mut [u32],
    outw: &mut [u32],
    room: u32,
) -> Result<Subgroup, Refusal>
    ensures { Subgrouping.subgrouping result table.new work.new inn.new outw.new ≡ from_predicate from.now over members.now table.old start work.old inn.old outw.old room }
{
    inner::admit_over(from, over)?;
    inner::told_into(from, over, members, table, start, work, inn, outw, room)
}
