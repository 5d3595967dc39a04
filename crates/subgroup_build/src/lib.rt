// Builds a subgroup from generators, numbering the overgroup's products in order of first appearance. From subgroup_action.rs; the crate `subgroup`
// has the calls.
#![tactic(auto)]

use egg::Factor;
use group_handles::Group;

pub mod inner;

// A subgroup of the product `over`, with other factors multiplied on at either side: the overgroup is below · over · above, and the subgroup is below
// · factor · above, the fastest digit first. The handles of the overgroup stand in one lent buffer, the factor in the one that it was built in.
#[derive(Clone, Copy)]
pub struct Subgroup {
    pub below: Group,
    pub factor: Factor,
    pub over: Group,
    pub above: Group,
}
