// A factor's name and the records that hold one, from the labels of abstract_group.rs and group.rs. The handle of a factor stays what
// it is, and the name stands beside it: every question takes the handle alone, so that none can look at a name.
#![tactic(auto)]

ghost use Rattle.std.specs.Prelude.{◌≡◌};
ghost use Rattle.names_values.specs.Names.{no_name, unnamed_of};

use builder::Builder;
use egg::{Factor, Refusal};
use group_handles::Group;

pub mod inner;

// A name of 0 to 32 bytes, by value: the first `length` bytes, and behind them zeros.
#[derive(Clone, Copy)]
pub struct Name {
    pub bytes: [u8; 32],
    pub length: u8,
}

// The record of a factor: its handle, and its name.
#[derive(Clone, Copy)]
pub struct Named {
    pub factor: Factor,
    pub name: Name,
}

// A build that is under way, and the name that its factor is to have.
#[derive(Clone, Copy)]
pub struct NamedBuilder {
    pub builder: Builder,
    pub name: Name,
}

// A product, and beside it the name of each of its factors, of which only the first `count` are looked at.
#[derive(Clone, Copy)]
pub struct NamedGroup {
    pub group: Group,
    pub names: [Name; 8],
}

// The empty name.
pub fn no_name() -> Name
    ensures { result ≡ no_name }
{
    Name {
        bytes: [0; 32],
        length: 0,
    }
}

// The record of a factor that was made without a name: one read from an image, a flattened product, a subgroup's.
pub fn unnamed(factor: Factor) -> Named
    ensures { result ≡ unnamed_of factor }
{
    Named {
        factor,
        name: no_name(),
    }
}
