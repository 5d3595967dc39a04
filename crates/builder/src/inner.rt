// The work of the builder's calls in the stretches that were lent, and what they answer.
ghost use Rattle.std.specs.Prelude.{◌≡◌, ◌≤◌};
ghost use Rattle.builder.specs.Calls.{Leaving, grown};

use super::{Builder, Grown};
use egg::{Factor, GeneratorId, GroupElementId, Refusal};

// Adds an element in the stretch of a build, and answers the builder that knows it. A refusal (5, 17 for a recorded
// length over 4,096, 6) zeroes the stretch and ends the build.
pub fn grow(t: &mut [u32], f: Factor, e: GroupElementId, g: GeneratorId) -> Grown
    requires { f.elements ≤ 65535 }
    ensures { Leaving.leaving result t.new ≡ grown t.old f e g }
{
    if builder_arguments::inner::over_long(t, f, e) {
        egg::inner::clear(t);
        return Grown {
            answer: Err(Refusal::Unreadable),
            builder: Builder(build_lending::inner::no_factor()),
        };
    }
    match build_reading::inner::add_successor(t, f.generators, f.room, f.elements, e, g) {
        Err(why) => {
            egg::inner::clear(t);
            Grown {
                answer: Err(why),
                builder: Builder(build_lending::inner::no_factor()),
            }
        }
        Ok(x) => Grown {
            answer: Ok(x),
            builder: Builder(Factor {
                elements: f.elements + 1,
                ..f
            }),
        },
    }
}
