// Reads names from lists of bytes, and writes what a call with a name answers.
ghost use Rattle.std.specs.Prelude.{◌≡◌, ◌≤◌, length};
ghost use Rattle.egg.specs.Answers.{answer_of};
ghost use Rattle.egg.specs.Factor.{verdict_paper};
ghost use Rattle.names_values.specs.Answers.{unnamed_made, unnamed_begun};
ghost use Rattle.capi_values.specs.Bridge.{made_into};
ghost use Rattle.capi_builder.specs.Answers.{begun_into};
ghost use Rattle.names_joined.specs.Joined.{at_start};
ghost use Rattle.capi_names.specs.Names.{misfit, name_at, named_product, record_of, record_into};
ghost use Rattle.capi_names.specs.Told.{as_made};

use egg::Refusal;
use names_values::{Name, Named, NamedBuilder, NamedGroup};

// What stands for a name that a list is too short for.
fn misfit() -> Name
    ensures { result ≡ misfit }
{
    Name {
        bytes: [0; 32],
        length: 255,
    }
}

// Reads the name at place i.
fn name_at(l: &[u8], i: u8) -> Name
    ensures { result ≡ name_at l.now i }
{
    let at = (i as usize) * 33;
    if l.len() < at + 33 {
        return misfit();
    }
    let mut bytes = [0; 32];
    bytes.copy_from_slice(&l[at..at + 32]);
    Name {
        bytes,
        length: l[at + 32],
    }
}

// Reads the product whose handles and names these lists start with.
pub fn named_product(handles: &[u32], count: u8, names: &[u8]) -> NamedGroup
    ensures { result ≡ named_product handles.now count names.now }
{
    let group = capi_handles::inner::product_of(handles, count);
    let names = [
        name_at(names, 0),
        name_at(names, 1),
        name_at(names, 2),
        name_at(names, 3),
        name_at(names, 4),
        name_at(names, 5),
        name_at(names, 6),
        name_at(names, 7),
    ];
    NamedGroup { group, names }
}

// Writes a name to the start of a list: its 32 bytes, then its length.
fn write_name(kept: &mut [u8], m: Name)
    requires { 33 ≤ length kept.old }
    ensures { kept.new ≡ at_start (record_of m) kept.old }
{
    let bytes = m.bytes;
    kept[..32].copy_from_slice(&bytes);
    kept[32] = m.length;
}

// Writes what a call that makes a factor answers, as `capi_values::inner::write_made` does, and the name beside it. Of a call that
// refuses there is no name, and `kept` stays.
pub fn write_named(out: &mut [u32], kept: &mut [u8], m: Result<Named, Refusal>) -> u32
    requires { 33 ≤ length kept.old }
    ensures { (result ≡ (verdict_paper (answer_of m)).number) × (out.new ≡ made_into (unnamed_made m) out.old) × (kept.new ≡ record_into m kept.old) }
{
    match m {
        Ok(named) => {
            write_name(kept, named.name);
            capi_values::inner::write_made(out, Ok(named.factor))
        }
        Err(why) => capi_values::inner::write_made(out, Err(why)),
    }
}

// A build that was begun as a factor, which has its name.
fn as_made(b: Result<NamedBuilder, Refusal>) -> Result<Named, Refusal>
    ensures { result ≡ as_made b }
{
    let begun = b?;
    Ok(Named {
        factor: begun.builder.0,
        name: begun.name,
    })
}

// Writes what `begin` answers, and the name that the factor will have.
pub fn write_named_begun(out: &mut [u32], kept: &mut [u8], b: Result<NamedBuilder, Refusal>) -> u32
    requires { 33 ≤ length kept.old }
    ensures { (result ≡ (verdict_paper (answer_of b)).number) × (out.new ≡ begun_into (unnamed_begun b) out.old) × (kept.new ≡ record_into (as_made b) kept.old) }
{
    write_named(out, kept, as_made(b))
}
