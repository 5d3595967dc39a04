// The calls with names as C functions. A name is lent as its bytes; where a call accepts, `record` gets it as it is kept, in 33 bytes: 32 with zeros
// behind the name, then its length. Such records in the order of a product's handles are what the joined name is asked for by.
// `capi_names_c` exports them to C.
#![tactic(auto)]

ghost use Rattle.std.specs.Prelude.{◌≡◌, [], ◌∷◌, length, replicate};
ghost use Rattle.capi_values.specs.Bridge.{telling, counted_code, letter_of};
ghost use Rattle.names.specs.Making.{named_composed, named_enumerates, named_begins};
ghost use Rattle.names.specs.Joined.{joined_answer, joined_leaves, joined_part};
ghost use Rattle.capi_names.specs.Names.{named_product};
ghost use Rattle.capi_names.specs.Told.{in_both, named_told, named_begun_told};

pub mod inner;

// Builds a factor with a name from composed rows, as hg_composed does. Refuses in this order: 4 for an out shorter than 5 or a record shorter than 33,
// 1 for more than 8 generators, 4 for a room out of range or a short buffer, 18 for a name of more than 32 bytes; then as hg_composed does. Where it
// refuses, the record stays as it was.
pub fn hg_composed_named(
    table: &mut [u32],
    start: usize,
    work: &mut [u32],
    rows: &[u32],
    n: u8,
    room: u32,
    name: &[u8],
    out: &mut [u32],
    record: &mut [u8],
) -> u32
    ensures { telling result out.new (table.new ∷ work.new ∷ «record».new ∷ []) ≡ in_both out.old «record».old (table.old ∷ work.old ∷ «record».old ∷ []) (named_told (named_composed table.old start work.old rows.now n room name.now) out.old «record».old) }
{
    if out.len() < 5 {
        return 4;
    }
    if record.len() < 33 {
        return 4;
    }
    let m = names::from_composed(table, start, work, rows, n, room, name);
    inner::write_named(out, record, m)
}

// Builds the group that the pair orders present, with a name, as hg_enumerate does. Refuses in this order: 4 for an out shorter than 5 or a record
// shorter than 33, 1 for more than 8 generators, 2 for a list of the wrong length, 3 for the first order out of range, 4 for a room out of range or a
// short buffer, 18 for a name of more than 32 bytes, 5 or 6 while it runs. Where it refuses, the record stays as it was.
pub fn hg_enumerate_named(
    table: &mut [u32],
    start: usize,
    work: &mut [u32],
    orders: &[u32],
    n: u8,
    room: u32,
    name: &[u8],
    out: &mut [u32],
    record: &mut [u8],
) -> u32
    ensures { telling result out.new (table.new ∷ work.new ∷ «record».new ∷ []) ≡ in_both out.old «record».old (table.old ∷ work.old ∷ «record».old ∷ []) (named_told (named_enumerates table.old start work.old orders.now n room name.now) out.old «record».old) }
{
    if out.len() < 5 {
        return 4;
    }
    if record.len() < 33 {
        return 4;
    }
    let m = names::enumerate(table, start, work, orders, n, room, name);
    inner::write_named(out, record, m)
}

// Begins a build of a factor with a name, as hg_begin does. Refuses in this order: 4 for an out shorter than 5 or a record shorter than 33, 1 for more
// than 8 generators, 4 for a room out of range or a short table, 18 for a name of more than 32 bytes. Where it refuses, the record stays as it was; else
// it belongs to the factor that hg_build makes.
pub fn hg_begin_named(
    table: &mut [u32],
    start: usize,
    room: u32,
    n: u8,
    name: &[u8],
    out: &mut [u32],
    record: &mut [u8],
) -> u32
    ensures { telling result out.new (table.new ∷ «record».new ∷ []) ≡ in_both out.old «record».old (table.old ∷ «record».old ∷ []) (named_begun_told (named_begins table.old start room n name.now) out.old «record».old) }
{
    if out.len() < 5 {
        return 4;
    }
    if record.len() < 33 {
        return 4;
    }
    let b = names::begin(table, start, room, n, name);
    inner::write_named_begun(out, record, b)
}

// Writes the joined name of a product, the names of its factors with " x " between each two, to the start of out and answers its length; names has 33
// bytes for each factor, as a record gets them. Refuses in this order, and writes nothing then: 17 for a handle that does not fit, a length above 32 or
// a list of names too short, 15 for a product too large, 18 for an out shorter than the joined name.
pub fn hg_joined(table: &[u32], handles: &[u32], count: u8, names: &[u8], out: &mut [u8]) -> u64
    ensures { (result ≡ counted_code (joined_answer table.now (named_product handles.now count names.now) (length out.old))) × (out.new ≡ joined_leaves table.now (named_product handles.now count names.now) out.old) }
{
    let g = inner::named_product(handles, count, names);
    capi_values::inner::counted_code(names::write_joined(table, g, out))
}

// Answers the k-th byte of the joined name or, from its end on, 256 and its length. A joined name that hg_joined refuses is empty here: the answer is
// 256. No joined name is longer than 277 bytes.
pub fn hg_joined_part(table: &[u32], handles: &[u32], count: u8, names: &[u8], k: usize) -> u64
    ensures { result ≡ letter_of (joined_part table.now (named_product handles.now count names.now) (replicate 277 0)) k }
{
    let g = inner::named_product(handles, count, names);
    let mut buffer = [0; 277];
    let part = names::joined(table, g, &mut buffer);
    capi_values::inner::letter_of(part, k)
}
