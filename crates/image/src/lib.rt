// The calls on stored images: their head; an image written from a factor, read back, checked in lent bytes, and walked. The Rust has no such file:
// document 01 asks for it under "The image".
#![tactic(auto)]

ghost use Rattle.std.specs.Prelude.{◌≡◌, ◌*◌, ◌≤◌, length, ltb, eqb, ◌&&◌};
ghost use Rattle.build_lending.specs.Lending.{table_need, Making};
ghost use Rattle.image_writing.specs.Written.{image_size};
ghost use Rattle.image.specs.Written.{write_count, written_image};
ghost use Rattle.image.specs.Read.{read_image};
ghost use Rattle.image.specs.Walked.{walk_number};
ghost use Rattle.image.specs.Checked.{image_verdict, image_need};
ghost use Rattle.image.specs.Image.{head_length, head_generators, head_elements, head_answer, bytes_need, image_number, image_work, ReadBelow};

use egg::{Factor, GroupElementId, Refusal};

// The length of what follows, as the head says it.
fn said_length(image: &[u8]) -> u32
    ensures { result ≡ head_length image.now }
{
    image_cells::inner::spell(
        egg::inner::byte(image, 3),
        egg::inner::byte(image, 2),
        egg::inner::byte(image, 1),
        egg::inner::byte(image, 0),
    )
}

// Answers how many generators the head says, and 0 where the image is too short to say it.
pub fn generators(image: &[u8]) -> u8
    ensures { result ≡ head_generators image.now }
{
    egg::inner::byte(image, 5)
}

// Answers how many elements the head says, a byte that is missing being 0.
pub fn elements(image: &[u8]) -> u32
    ensures { ReadBelow result (head_elements image.now) 65536 }
{
    image_cells::inner::spell_half(egg::inner::byte(image, 6), egg::inner::byte(image, 7))
}

// Refuses what the head alone decides, in this order: 16 for a wrong size, length or version, 1 for more than 8 generators, 16 for no elements or a
// length other than 4 + 2nN.
pub fn head(image: &[u8]) -> Result<(), Refusal>
    ensures { result ≡ head_answer image.now }
{
    if image.len() < 8 {
        return Err(Refusal::ImageMalformed);
    }
    let length = said_length(image) as usize;
    if length + 4 != image.len() {
        return Err(Refusal::ImageMalformed);
    }
    if egg::inner::byte(image, 4) != 1 {
        return Err(Refusal::ImageMalformed);
    }
    let n = generators(image);
    if 8 < n {
        return Err(Refusal::TooManyGenerators(n as u32));
    }
    let count = elements(image);
    if count == 0 {
        return Err(Refusal::ImageMalformed);
    }
    if length != 4 + 2 * (n as usize) * (count as usize) {
        return Err(Refusal::ImageMalformed);
    }
    Ok(())
}

// How many of the lent bytes, from the front on, are the table of the build: four for each number.
fn table_bytes(n: u8, count: u32) -> usize
    ensures { result ≡ 4 * table_need n count }
{
    4 * build_lending::inner::table_need(n, count)
}

// How many bytes of work the check of an image needs.
pub fn bytes_need(n: u8, count: u32) -> usize
    ensures { result ≡ bytes_need n count }
{
    let m = n as usize;
    (count as usize) * (32 * m * m + 100)
}

// True where there is no generator and more than one element, which cannot be reached then.
fn out_of_reach(n: u8, count: u32) -> bool
    ensures { result ≡ (eqb n 0 && ltb 1 count) }
{
    n == 0 && 1 < count
}

// Answers how many bytes of work the check of an image needs. Refuses what the head alone decides, and what no work that is long enough can change: 16
// or 1 for the head, then 16 where there is no generator and more than one element.
pub fn need(image: &[u8]) -> Result<u32, Refusal>
    ensures { result ≡ image_need image.now }
{
    head(image)?;
    let n = generators(image);
    let count = elements(image);
    if out_of_reach(n, count) {
        return Err(Refusal::ImageMalformed);
    }
    Ok(bytes_need(n, count) as u32)
}

// Checks an image in lent bytes. Refuses in this order: 16 or 1 for the head, 4 for short work, 7, 5 or 6 while it reads, 16 for fewer elements than
// the head says, then 8 to 12; with the places that `read` gives.
pub fn verdict(image: &[u8], work: &mut [u8]) -> Result<(), Refusal>
    ensures { (result ≡ image_verdict image.now (length work.old)) × (work.new ≡ image_work image.now work.old) }
{
    head(image)?;
    let n = generators(image);
    let count = elements(image);
    let need = bytes_need(n, count);
    if work.len() < need {
        return Err(Refusal::TooShort);
    }
    let v = image_check::inner::judge(
        &mut work[..need],
        table_bytes(n, count),
        &image[8..],
        n,
        count,
    );
    image_cells::inner::clear(&mut work[..need]);
    v
}

// Checks an image in lent bytes and answers the number of its verdict: the refusal's, or 0 where a group has its table.
pub fn check(image: &[u8], work: &mut [u8]) -> u32
    ensures { (result ≡ image_number image.now (length work.old)) × (work.new ≡ image_work image.now work.old) }
{
    match verdict(image, work) {
        Ok(()) => 0,
        Err(why) => why.number(),
    }
}

// How long the image of a factor is.
fn size(n: u8, count: u32) -> u32
    requires { (n ≤ 8) × (count ≤ 65535) }
    ensures { result ≡ image_size n count }
{
    8 + 2 * (n as u32) * count
}

// Writes the image of a factor to the start of a lent byte buffer and answers its length. Refuses in this order: 17 for a handle that does not fit, 4
// for a short buffer, 17 for a step that is missing or out of range.
pub fn write(table: &[u32], f: Factor, out: &mut [u8]) -> Result<u32, Refusal>
    ensures { (result ≡ write_count table.now f (length out.old)) × (out.new ≡ written_image table.now f out.old) }
{
    if !egg::fits(table, f) {
        return Err(Refusal::Unreadable);
    }
    let n = f.generators;
    let count = f.elements;
    let need = size(n, count);
    if out.len() < (need as usize) {
        return Err(Refusal::TooShort);
    }
    let s = egg::inner::part(table, f);
    image_writing::inner::all_known(s, n, count)?;
    image_writing::inner::put_head(out, need - 4, n, count);
    image_writing::inner::put_rows(out, s, n, count);
    Ok(need)
}

// Builds the factor that an image stores into the stretch of `table` that starts at `start`. Refuses as `check` does, with the places; 4 is for a
// short table or work.
pub fn read(
    image: &[u8],
    table: &mut [u32],
    start: usize,
    work: &mut [u32],
) -> Result<Factor, Refusal>
    ensures { Making.making result table.new work.new ≡ read_image image.now table.old start work.old }
{
    head(image)?;
    let n = generators(image);
    let count = elements(image);
    if !build_lending::inner::lent_right(table.len(), start, work.len(), count, n) {
        return Err(Refusal::TooShort);
    }
    let end = build_lending::inner::stretch_end(table.len(), start, count, n);
    let need = build_lending::inner::work_need(n, count);
    let made = image_reading::inner::read_in(
        &mut table[start..end],
        &mut work[..need],
        &image[8..],
        n,
        count,
    );
    build_lending::inner::made(start, count, n, made)
}

// Walks a word of generators from an element and answers the element reached, or 65,536 + the refusal's number. Refuses in this order: 16 or 1 for
// the head, 14 for the start or a generator out of range, 17 for a number read that is no element.
pub fn walk(image: &[u8], start: GroupElementId, word: &[u8]) -> u32
    ensures { result ≡ walk_number image.now start.0 word.now }
{
    if let Err(why) = head(image) {
        return 65536 + why.number();
    }
    let n = generators(image);
    let count = elements(image);
    if count <= start.0 {
        return 65550;
    }
    if !image_walk::inner::letters_below(n, word) {
        return 65550;
    }
    image_walk::inner::follow(&image[8..], n, count, start, word)
}
