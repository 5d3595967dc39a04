// The listing program: it reads a group's pair orders from standard input and prints its listing to standard output.
#![tactic(auto)]

ghost use Rattle.std.specs.Prelude.{IfOk, ◌≤◌, length};

use egg::Refusal;
use std::io;
use std::io::Read;

// Reads until the buffer is full or the input ends, and answers how many bytes there are.
fn read_full(reader: &mut impl Read, input: &mut [u8]) -> io::Result<usize>
    ensures { IfOk result (λ read. read ≤ length input.new) }
{
    let mut read: usize = 0;
    while read < input.len() {
        let more = reader.read(&mut input[read..])?;
        if more == 0 {
            break;
        }
        read += more;
    }
    Ok(read)
}

// No right input is longer than 57 bytes, so 64 show every extra byte. No listing is longer than 9,268 bytes, so that none is refused and all of it is
// printed (`listing_fits` and `listing_whole` of listing_page).
fn main(rt: HostRuntime) -> io::Result<()> {
    let mut input = [0u8; 64];
    let mut text = [0u8; 9268];
    let read = read_full(&mut rt.reader(), &mut input)?;
    let answer = listing_page::listing(&input[..read], &mut text);
    if let Ok(used) = answer {
        rt.write_all(&text[..used as usize])?;
    }
    Ok(())
}
