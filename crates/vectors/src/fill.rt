// Fill bits wanted, written and removed.
use show::{Hex, Shown};
use std::io;

// How many fill bits a PDU of `total` bits wants in a room of `room` bits.
fn wanted(rt: &impl Print, total: usize, room: usize) -> io::Result<()> {
    println!(rt;
        "fill of {total} bits in {room} is {}",
        fillbits::compute_required(total, room)
    )
}

// What fill removal answers of the bits from `start` up to `end`.
fn removed(rt: &impl Print, buf: &[u8], start: usize, end: usize) -> io::Result<()> {
    let reply = fillbits::get_num_fill_bits(buf, start, end);
    println!(rt; " fill from {start} to {end}: {}", Shown(reply))
}

// Five fill bits written behind 43 bits of ones, and removed again.
fn written_and_removed(rt: &impl Print) -> io::Result<()> {
    let mut s = [0xffu8; 6];
    fillbits::write(&mut s, 43, 5);
    print!(rt; "5 fill bits at 43: {}", Hex(&s))?;
    removed(rt, &s, 0, 48)
}

pub(crate) fn run(rt: &impl Print) -> io::Result<()> {
    for total in [43, 48, 264, 265, 268, 300] {
        wanted(rt, total, 268)?;
    }
    written_and_removed(rt)?;
    let s = [0x00u8, 0x28, 0x00];
    for (start, end) in [
        (0, 24),
        (0, 11),
        (13, 24),
        (12, 24),
        (24, 3),
        (0, 25),
        (0, usize::MAX),
    ] {
        print!(rt; "{}:", Hex(&s))?;
        removed(rt, &s, start, end)?;
    }
    // A long run of zeros.
    let zeros = [0u8; 65536];
    print!(rt; "65536 octets of 0:")?;
    removed(rt, &zeros, 0, 524288)
}
