// Queues of records with SDUs of many lengths, alone and sixteen at a time, built into blocks until nothing is left, by the calls of C
// and Rust programs. Each block is printed as `slotrun` prints it; the file `stdout` holds what the Rust printed for the same queues.
#![tactic(auto)]

ghost use Rattle.std.specs.Prelude.{◌<◌};

use show::Hex;
use std::{array, io};

// The lengths of the SDUs, in bits.
const LENGTHS: [u16; 12] = [0, 1, 221, 222, 223, 224, 225, 226, 476, 477, 2047, 2048];

// More blocks than any of the queues fills.
const MOST_BLOCKS: usize = 200;

// The words of a record with an address, a tag and so many SDU bits.
// Kept: words by their places, and arrays lent to each call, since this is a caller as a program in C is one, over the C interface.
fn record(number: u32, tag: u16, bits: u16) -> [u32; 23] {
    let mut r = [0u32; 23];
    r[2] = number;
    r[3] = tag as u32 + 1;
    r[21] = bits as u32;
    r
}

// The records are queued, each with the same octets for its SDU, at a new station at 0/1/1/1, and sent in as many blocks as it takes.
fn send(rt: &impl Print, records: &[[u32; 23]]) -> io::Result<()> {
    let sdu: [u8; 256] = array::from_fn(|i| ((i * 73 + 29) % 256) as u8);
    let mut station = [0u32; 228];
    let mut queue = [0u32; 1472];
    let mut store = [0u8; 16384];
    bs_sched_c::bs_sched_new(&mut station, 0, 1, 1, 1);
    for r in records {
        bs_sched_c::bs_sched_enqueue(&mut station, &mut queue, &mut store, 1, r, &sdu);
    }
    for _ in 0..MOST_BLOCKS {
        let mut block = [0u8; 34];
        let b = bs_sched_c::bs_sched_build(&mut station, &mut queue, &mut store, &mut block);
        if b.built == 0 {
            break;
        }
        print!(rt; "B 0 {}", Hex(&block))?;
        for tag in b.tags.iter().take(b.tag_count as usize) {
            print!(rt; " {tag}")?;
        }
        println!(rt)?;
    }
    Ok(())
}

fn main(rt: HostRuntime) -> io::Result<()> {
    for bits in LENGTHS {
        send(&rt, &[record(1000 + bits as u32, bits, bits)])?;
    }
    for bits in LENGTHS {
        let sixteen: [[u32; 23]; 16] = array::from_fn(
            |j|
                requires { j < 16 }
            { record(2000 + j as u32, 16 * j as u16 + bits % 16, bits) },
        );
        send(&rt, &sixteen)?;
    }
    Ok(())
}
