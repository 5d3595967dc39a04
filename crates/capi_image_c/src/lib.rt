// Exports the calls of `capi_image` as C functions, for the archive libcapi_image.a: each calls the function of its name there and states its clauses again.
#![tactic(auto)]

ghost use Rattle.std.specs.Prelude.{◌≡◌, [], ◌∷◌, length};
ghost use Rattle.image.specs.Image.{image_number, image_work};
ghost use Rattle.image.specs.Checked.{image_need};
ghost use Rattle.image.specs.Walked.{walk_number};
ghost use Rattle.image.specs.Written.{write_count, written_image};
ghost use Rattle.image.specs.Read.{read_image};
ghost use Rattle.capi_values.specs.Bridge.{handle, counted_code, telling, in_out, bridged};
ghost use Rattle.capi_image.specs.Verdict.{checked_into};

#[unsafe(no_mangle)]
pub extern "C" fn hg_image_check(image: &[u8], work: &mut [u8]) -> u32
    ensures { (result ≡ image_number image.now (length work.old)) × (work.new ≡ image_work image.now work.old) }
{
    capi_image::hg_image_check(image, work)
}

#[unsafe(no_mangle)]
pub extern "C" fn hg_image_need(image: &[u8]) -> u64
    ensures { result ≡ counted_code (image_need image.now) }
{
    capi_image::hg_image_need(image)
}

#[unsafe(no_mangle)]
pub extern "C" fn hg_image_verdict(image: &[u8], work: &mut [u8], out: &mut [u32]) -> u32
    ensures { telling result out.new (work.new ∷ []) ≡ in_out 4 out.old (work.old ∷ []) (checked_into image.now work.old out.old) }
{
    capi_image::hg_image_verdict(image, work, out)
}

#[unsafe(no_mangle)]
pub extern "C" fn hg_image_walk(image: &[u8], start: u32, word: &[u8]) -> u32
    ensures { result ≡ walk_number image.now start word.now }
{
    capi_image::hg_image_walk(image, start, word)
}

#[unsafe(no_mangle)]
pub extern "C" fn hg_image_write(
    table: &[u32],
    start: usize,
    room: u32,
    n: u8,
    count: u32,
    out: &mut [u8],
) -> u64
    ensures { (result ≡ counted_code (write_count table.now (handle start room n count) (length out.old))) × (out.new ≡ written_image table.now (handle start room n count) out.old) }
{
    capi_image::hg_image_write(table, start, room, n, count, out)
}

#[unsafe(no_mangle)]
pub extern "C" fn hg_image_read(
    bytes: &[u8],
    table: &mut [u32],
    start: usize,
    work: &mut [u32],
    out: &mut [u32],
) -> u32
    ensures { telling result out.new (table.new ∷ work.new ∷ []) ≡ in_out 5 out.old (table.old ∷ work.old ∷ []) (bridged (read_image bytes.now table.old start work.old) out.old) }
{
    capi_image::hg_image_read(bytes, table, start, work, out)
}
