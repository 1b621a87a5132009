// Reads blocks of 34 octets on standard input, one after another, and prints the headers of each in words.
#![tactic(auto)]

mod grant;
mod headers;

ghost use Rattle.std.specs.Prelude.{◌≡◌, ◌≤◌, length, take};
ghost use Rattle.sizes.specs.Sizes.{block_octets};
ghost use Rattle.mac_reader.specs.Reader.{reading_of, read_block};

use crate::headers::InWords;
use arrayvec::ArrayVec;
use mac_reader::{MOST_PDUS, PlacedHeader};
use questions::Refusal;
use sizes::BLOCK_OCTETS;
use std::io;

// What the reader answers for the first `got` octets of a block.
fn read(block: &[u8], got: usize) -> Result<ArrayVec<PlacedHeader, MOST_PDUS>, Refusal>
    requires { got ≤ length block.now }
    ensures { reading_of result ≡ read_block block_octets (take got block.now) }
{
    mac_reader::read_block(&block[..got])
}

// A block under its number, the first `got` octets, or why it is refused: 12, and 2 where the input ends within it.
fn dump(rt: &impl Print, number: u64, block: &[u8], got: usize) -> io::Result<()>
    requires { got ≤ length block.now }
{
    print!(rt; "block {number}")?;
    if got < BLOCK_OCTETS {
        print!(rt; ": cut, {got} of 34 octets")?;
    }
    match read(block, got) {
        Ok(b) => {
            println!(rt)?;
            for p in b.as_slice() {
                println!(rt; "{}", InWords(*p))?;
            }
            Ok(())
        }
        Err(refusal) => println!(rt; ": refused, question {}", u8::from(refusal)),
    }
}

fn main(rt: HostRuntime) -> io::Result<()> {
    let mut input = rt.stdin();
    let mut block = [0u8; BLOCK_OCTETS];
    for number in 1..=u64::MAX {
        let got = reading::read_full(&mut input, &mut block);
        if got == 0 {
            break;
        }
        dump(&rt, number, &block, got)?;
        if got < BLOCK_OCTETS {
            break;
        }
    }
    Ok(())
}
