// Fields of any width in a run of octets, most significant bit first.

use show::Hex;
use std::io;

// A field of 11 bits across three octets of ones, and what is read there again.
fn eleven_bits(rt: &impl Print) -> io::Result<()> {
    let mut s = [0xffu8; 4];
    bitbuffer::write_bits(&mut s, 5, 11, 0x2a5);
    let read = bitbuffer::read_bits(&s, 5, 11);
    println!(rt; "11 bits 2a5 at 5: {} read {read}", Hex(&s))
}

// The widest field, off an octet.
fn sixty_four_bits(rt: &impl Print) -> io::Result<()> {
    let mut s = [0u8; 9];
    bitbuffer::write_bits(&mut s, 3, 64, 0xfedcba9876543210);
    let read = bitbuffer::read_bits(&s, 3, 64);
    println!(rt; "64 bits fedcba9876543210 at 3: {} read {read}", Hex(&s))
}

// A field of no bits leaves all bits, and only the low bits of a value are written.
fn no_bits_and_low_bits(rt: &impl Print) -> io::Result<()> {
    let mut s = [0u8; 2];
    bitbuffer::write_bits(&mut s, 16, 0, 7);
    print!(rt; "no bits at 16: {}", Hex(&s))?;
    bitbuffer::write_bits(&mut s, 4, 3, 0xfd);
    println!(rt; " 3 bits fd at 4: {}", Hex(&s))
}

// Thirteen bits copied from one offset to another.
fn copied(rt: &impl Print) -> io::Result<()> {
    let src = [0x12u8, 0x34, 0x56];
    let mut dst = [0xffu8; 3];
    bitbuffer::copy_bits(&mut dst, 2, &src, 5, 13);
    println!(rt; "13 bits of 123456 from 5 to 2: {}", Hex(&dst))
}

pub(crate) fn run(rt: &impl Print) -> io::Result<()> {
    eleven_bits(rt)?;
    sixty_four_bits(rt)?;
    no_bits_and_low_bits(rt)?;
    copied(rt)
}
