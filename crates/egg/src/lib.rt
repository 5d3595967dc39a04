// From egg.rs: the element-by-generator table, in a lent stretch of 32-bit numbers, and the handle of a factor that
// stands in one.
#![tactic(auto)]

ghost use Rattle.std.specs.Prelude.{◌≡◌, Bool, ◌+◌, ◌*◌, ◌<◌, ◌≤◌, length};
ghost use Rattle.egg.specs.Factor.{has_room, fits_in, step_answer};
ghost use Rattle.egg.specs.Refusals.{refusal_paper, places_of};

pub mod inner;

// The number of an element; 0 is the identity.
#[derive(Clone, Copy, Debug, PartialEq, Eq, PartialOrd, Ord, Hash)]
pub struct GroupElementId(pub u32);

// The number of a generator, never taken for an element's.
#[derive(Clone, Copy, Debug, PartialEq, Eq, PartialOrd, Ord, Hash)]
pub struct GeneratorId(pub u8);

// Why a call refuses, and where: document 01's refusals, each with the places that are listed for it.
#[derive(Clone, Copy, Debug, PartialEq, Eq)]
pub enum Refusal {
    // 1: more than 8 generators; how many.
    TooManyGenerators(u32),
    // 2: the order list is not n(n-1)/2 long.
    OrdersMiscounted,
    // 3: an order outside 2..32,767; its index in the list.
    OrderOutside(u32),
    // 4: a room of 0 or above 65,535, or a lent buffer that is too short.
    TooShort,
    // 5: an element is needed beyond the room.
    BeyondRoom(GroupElementId, GeneratorId),
    // 6: the word of a new element would pass 4,096.
    WordTooLong(GroupElementId, GeneratorId),
    // 7: a composed number skips ahead.
    SkipsAhead(GroupElementId, GeneratorId, u32),
    // 8: a successor or predecessor is missing.
    StepMissing(GroupElementId, GeneratorId),
    // 9: a fixed point or a step to a generator's element; where arrivals are miscounted, the generator is n.
    StepAstray(GroupElementId, GeneratorId),
    // 10: the inverse of the inverse differs; the element, its inverse, and the inverse of that.
    InverseDiffers(GroupElementId, GroupElementId, GroupElementId),
    // 11: the identity row is not 1..n.
    IdentityRowDiffers(GeneratorId),
    // 12: no group has these right steps.
    NoGroup,
    // 13: a relation fails; the element, and the two generators.
    RelationFails(GroupElementId, GeneratorId, GeneratorId),
    // 14: an argument is out of range; its position among the arguments.
    ArgumentOutside(u32),
    // 15: more than 8 factors, or a product, an overgroup or a predicate that is too large.
    TooLarge,
    // 16: the image is malformed.
    ImageMalformed,
    // 17: the handle does not fit its buffer, or a number read from it is out of range.
    Unreadable,
    // 18: a name, or the buffer for one, has not the length that is needed.
    NameLength,
}

impl Refusal {
    // The refusal's number.
    pub fn number(self) -> u32
        ensures { result ≡ (refusal_paper self).number }
    {
        match self {
            Refusal::TooManyGenerators(_) => 1,
            Refusal::OrdersMiscounted => 2,
            Refusal::OrderOutside(_) => 3,
            Refusal::TooShort => 4,
            Refusal::BeyondRoom(_, _) => 5,
            Refusal::WordTooLong(_, _) => 6,
            Refusal::SkipsAhead(_, _, _) => 7,
            Refusal::StepMissing(_, _) => 8,
            Refusal::StepAstray(_, _) => 9,
            Refusal::InverseDiffers(_, _, _) => 10,
            Refusal::IdentityRowDiffers(_) => 11,
            Refusal::NoGroup => 12,
            Refusal::RelationFails(_, _, _) => 13,
            Refusal::ArgumentOutside(_) => 14,
            Refusal::TooLarge => 15,
            Refusal::ImageMalformed => 16,
            Refusal::Unreadable => 17,
            Refusal::NameLength => 18,
        }
    }

    // The refusal's three places, 0 where it has none.
    pub fn places(self) -> [u32; 3]
        ensures { result ≡ places_of self }
    {
        match self {
            Refusal::TooManyGenerators(count) => [count, 0, 0],
            Refusal::OrderOutside(index) => [index, 0, 0],
            Refusal::BeyondRoom(e, g)
            | Refusal::WordTooLong(e, g)
            | Refusal::StepMissing(e, g)
            | Refusal::StepAstray(e, g) => [e.0, g.0 as u32, 0],
            Refusal::SkipsAhead(e, g, number) => [e.0, g.0 as u32, number],
            Refusal::InverseDiffers(e, inverse, again) => [e.0, inverse.0, again.0],
            Refusal::IdentityRowDiffers(g) => [g.0 as u32, 0, 0],
            Refusal::RelationFails(e, g, h) => [e.0, g.0 as u32, h.0 as u32],
            Refusal::ArgumentOutside(position) => [position, 0, 0],
            _ => [0, 0, 0],
        }
    }
}

// The handle of a factor: where its stretch starts in the table buffer, and the numbers that it was built with.
#[derive(Clone, Copy, Debug, PartialEq, Eq)]
pub struct Factor {
    pub start: usize,
    pub room: u32,
    pub generators: u8,
    pub elements: u32,
}

// Answers whether a buffer of `len` numbers has a stretch for `room` elements of n generators from `start` on, within
// document 01's limits: at most 8 generators and a room of 1 to 65,535.
pub fn has_room(len: usize, start: usize, room: u32, n: u8) -> bool
    ensures { result ≡ has_room len start room n }
{
    if 8 < n {
        return false;
    }
    if room == 0 {
        return false;
    }
    if 65535 < room {
        return false;
    }
    let need = (room as usize) * inner::width(n);
    if len < need {
        return false;
    }
    start <= len - need
}

// Whether the handle fits its buffer: its stretch lies within it, and it has 1 to `room` elements. Where it does not,
// every call on it answers 17.
pub fn fits(table: &[u32], f: Factor) -> bool
    ensures { result ≡ fits_in (length table.now) f }
{
    if f.elements == 0 {
        return false;
    }
    if f.room < f.elements {
        return false;
    }
    has_room(table.len(), f.start, f.room, f.generators)
}

// Answers the element to which a generator leads from an element. Refuses in this order: 17 for a handle that does not
// fit, 14 for an element (place 0) or a generator (place 1) that the factor does not have, 17 for a number read from
// the table that is out of range.
pub fn step(
    table: &[u32],
    f: Factor,
    e: GroupElementId,
    g: GeneratorId,
) -> Result<GroupElementId, Refusal>
    ensures { result ≡ step_answer table.now f e g }
{
    if !fits(table, f) {
        return Err(Refusal::Unreadable);
    }
    if f.elements <= e.0 {
        return Err(Refusal::ArgumentOutside(0));
    }
    if f.generators <= g.0 {
        return Err(Refusal::ArgumentOutside(1));
    }
    inner::next(inner::part(table, f), f.generators, f.elements, e, g)
}
