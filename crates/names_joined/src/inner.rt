// How long the joined name is, and how it is written.
ghost use Rattle.std.specs.Prelude.{◌≡◌, true, ◌+◌, ◌≤◌, length};
ghost use Rattle.names_values.specs.Names.{bytes_of};
ghost use Rattle.names_joined.specs.Joined.{listed_names, names_fit, gap_at, joined_name, joined_length, at_start, PutFrom};

use egg::Refusal;
use names_values::{Name, NamedGroup};

// How many names are listed: as many as handles.
pub fn names_listed(g: NamedGroup) -> usize
    ensures { (result ≡ length (listed_names g)) × (result ≤ 8) }
{
    group_handles::inner::listed(g.group)
}

// How many bytes the name at f adds, with those of " x " before each but the first.
fn added(f: usize, m: Name) -> u32
    requires { m.length ≤ 32 }
    ensures { (result ≡ length (gap_at f) + length (bytes_of m)) × (result ≤ 35) }
{
    let n = m.length as u32;
    if f == 0 { n } else { 3 + n }
}

// Answers how many bytes the joined name has. Refuses 17 where a recorded length is above 32.
pub fn joined_length(g: NamedGroup) -> Result<u32, Refusal>
    ensures { result ≡ joined_length (listed_names g) }
{
    let c = names_listed(g);
    let mut length: u32 = 0;
    for f in 0..c {
        let m = g.names[f];
        if 32 < m.length {
            return Err(Refusal::Unreadable);
        }
        length += added(f, m);
    }
    Ok(length)
}

// Writes bytes into a buffer from `at` on, and answers where they end.
fn put_at(out: &mut [u8], at: usize, part: &[u8]) -> usize
    requires { at + length part.now ≤ length out.old }
    ensures { PutFrom part.now out.old at out.new result }
{
    let end = at + part.len();
    out[at..end].copy_from_slice(part);
    end
}

// Writes a name from `at` on, and answers where it ends.
fn put_name(out: &mut [u8], at: usize, m: Name) -> usize
    requires { (m.length ≤ 32) × (at + length (bytes_of m) ≤ length out.old) }
    ensures { PutFrom (bytes_of m) out.old at out.new result }
{
    let bytes = m.bytes;
    put_at(out, at, &bytes[..m.length as usize])
}

// Writes what stands before the name at f from `at` on, and answers where it ends.
fn put_gap(out: &mut [u8], at: usize, f: usize) -> usize
    requires { at + length (gap_at f) ≤ length out.old }
    ensures { PutFrom (gap_at f) out.old at out.new result }
{
    if f == 0 {
        return at;
    }
    put_at(out, at, b" x ")
}

// Writes the joined name to the start of a buffer that has the room.
pub fn write(g: NamedGroup, out: &mut [u8])
    requires { (names_fit (listed_names g) ≡ true) × (length (joined_name (listed_names g)) ≤ length out.old) }
    ensures { out.new ≡ at_start (joined_name (listed_names g)) out.old }
{
    let c = names_listed(g);
    let mut at: usize = 0;
    for f in 0..c {
        let m = g.names[f];
        at = put_gap(out, at, f);
        at = put_name(out, at, m);
    }
}
