// Makes the listing as text, under contract, so that the program only reads and prints.
#![tactic(auto)]

ghost use Rattle.std.specs.Prelude.{◌≡◌, length};
ghost use Rattle.listing_page.specs.Listing.{listing_count, listing_leaves};

use egg::Refusal;

pub mod inner;

// Stores the listing of an input from the front of `out` on, and answers its length. Refuses with 4 an `out` that is shorter, which is left as it was:
// so the text is first made in a buffer that has room for every listing. A refusal of the orders is a listing too: the word "refused" and its number.
pub fn listing(input: &[u8], out: &mut [u8]) -> Result<u32, Refusal>
    ensures { (result ≡ listing_count input.now (length out.old)) × (out.new ≡ listing_leaves input.now out.old) }
{
    let mut page = [0u8; 9268];
    let mut table = [0u32; 1440];
    let mut work = [0u32; 13440];
    let mut orders = [0u32; 28];
    let used = inner::write_listing(input, &mut page, &mut table, &mut work, &mut orders);
    if out.len() < used {
        return Err(Refusal::TooShort);
    }
    listing_lines::inner::write_word(out, 0, &page[..used]);
    Ok(used as u32)
}
