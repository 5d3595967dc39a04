// A program that asks for listings at both sides of the edge: with a buffer that is just as long as the text, with one that is a byte shorter, and with
// a longer one. It prints each answer and what the buffer holds then; dots are what it held before.
#![tactic(auto)]

use egg::Refusal;
use std::io;

fn number(rt: &impl Print, x: u32) -> io::Result<()> {
    print!(rt; "{x}")
}

// Prints the length or the refusal, and the whole buffer.
fn tell(rt: &impl Print, answer: Result<u32, Refusal>, out: &[u8]) -> io::Result<()> {
    match answer {
        Ok(used) => number(rt, used)?,
        Err(why) => {
            rt.write_all(b"refused ")?;
            number(rt, why.number())?;
        }
    }
    rt.write_all(b"\n")?;
    rt.write_all(out)?;
    rt.write_all(b"\n")
}

// Asks for the listing of an input, and prints the answer.
fn ask(rt: &impl Print, input: &[u8], out: &mut [u8]) -> io::Result<()> {
    let answer = listing_page::listing(input, out);
    tell(rt, answer, out)
}

// The listing of S3 has 70 bytes; that of no input, which is refused by 2, has 10.
fn main(rt: HostRuntime) -> io::Result<()> {
    let mut exact = [46u8; 70];
    let mut short = [46u8; 69];
    let mut longer = [46u8; 72];
    ask(&rt, &[2, 0, 3], &mut exact)?;
    ask(&rt, &[2, 0, 3], &mut short)?;
    ask(&rt, &[2, 0, 3], &mut longer)?;
    let mut refusal = [46u8; 10];
    let mut less = [46u8; 9];
    ask(&rt, b"", &mut refusal)?;
    ask(&rt, b"", &mut less)
}
