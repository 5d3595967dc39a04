// The image's calls as C functions on bytes and numbers, for a host: host/hypergroup.h has them for C. The check and the walk need no factor.
// `capi_image_c` exports them to C.
#![tactic(auto)]

ghost use Rattle.std.specs.Prelude.{◌≡◌, [], ◌∷◌, length};
ghost use Rattle.image.specs.Image.{image_number, image_work};
ghost use Rattle.image.specs.Checked.{image_need};
ghost use Rattle.image.specs.Walked.{walk_number};
ghost use Rattle.image.specs.Written.{write_count, written_image};
ghost use Rattle.image.specs.Read.{read_image};
ghost use Rattle.capi_values.specs.Bridge.{handle, counted_code, telling, in_out, bridged};
ghost use Rattle.capi_image.specs.Verdict.{checked_into};

use capi_values::inner;
use egg::GroupElementId;

// Checks an image in lent bytes and answers the refusal's number, or 0. Refuses in this order: 16 or 1 for the head, 4 for short work, 7, 5 or 6
// while it reads, 16 for fewer elements than the head says, then 8 to 12.
pub fn hg_image_check(image: &[u8], work: &mut [u8]) -> u32
    ensures { (result ≡ image_number image.now (length work.old)) × (work.new ≡ image_work image.now work.old) }
{
    image::check(image, work)
}

// Answers how many bytes of work a check of the image needs. Refuses what no work that is long enough can change: 16 or 1 for the head, then
// 16 where there is no generator and more than one element.
pub fn hg_image_need(image: &[u8]) -> u64
    ensures { result ≡ counted_code (image_need image.now) }
{
    inner::counted_code(image::need(image))
}

// Checks an image in lent bytes as hg_image_check does, writes the verdict into out, its number and three places, and hands the number back. Refuses
// with 4 an out shorter than 4, before anything else.
pub fn hg_image_verdict(image: &[u8], work: &mut [u8], out: &mut [u32]) -> u32
    ensures { telling result out.new (work.new ∷ []) ≡ in_out 4 out.old (work.old ∷ []) (checked_into image.now work.old out.old) }
{
    if out.len() < 4 {
        return 4;
    }
    inner::write_verdict(out, image::verdict(image, work))
}

// Walks a word of generators from an element and answers the element reached, or 65,536 + the refusal's number. Refuses in this order: 16 or 1 for
// the head, 14 for the start or a generator out of range, 17 for a number read that is no element.
pub fn hg_image_walk(image: &[u8], start: u32, word: &[u8]) -> u32
    ensures { result ≡ walk_number image.now start word.now }
{
    image::walk(image, GroupElementId(start), word)
}

// Writes the image of a factor to the start of out and answers its length. Refuses in this order: 17 for a handle that does not fit, 4 for a short
// out, 17 for a step that is missing or out of range.
pub fn hg_image_write(
    table: &[u32],
    start: usize,
    room: u32,
    n: u8,
    count: u32,
    out: &mut [u8],
) -> u64
    ensures { (result ≡ counted_code (write_count table.now (handle start room n count) (length out.old))) × (out.new ≡ written_image table.now (handle start room n count) out.old) }
{
    let f = inner::factor_of(start, room, n, count);
    inner::counted_code(image::write(table, f, out))
}

// Builds the factor that an image stores. Refuses with 4 an out shorter than 5; then as hg_image_check does, with the places, where 4 is for a short
// table or work.
pub fn hg_image_read(
    bytes: &[u8],
    table: &mut [u32],
    start: usize,
    work: &mut [u32],
    out: &mut [u32],
) -> u32
    ensures { telling result out.new (table.new ∷ work.new ∷ []) ≡ in_out 5 out.old (table.old ∷ work.old ∷ []) (bridged (read_image bytes.now table.old start work.old) out.old) }
{
    if out.len() < 5 {
        return 4;
    }
    inner::write_made(out, image::read(bytes, table, start, work))
}
