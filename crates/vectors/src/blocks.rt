// Document 01, "Block" and question 12: every address type, length codes, and headers that pass their PDU.
ghost use Rattle.std.specs.Prelude.{◌+◌, ◌≤◌, length};

use crate::pdus;
use std::io;

// A block with the octets `x`, two or more, behind a MAC-END of `end` octets; in its place where `end` is 0.
fn behind(rt: &impl Print, end: u8, x: &[u8]) -> io::Result<()>
    requires { end + length x.now ≤ 34 }
{
    let mut block = [0u8; 34];
    block[0] = 0x60 + end / 8;
    block[1] = end % 8 * 32;
    let at = end as usize;
    block[at..at + x.len()].copy_from_slice(x);
    pdus::read(rt, &block)
}

// A null of that length code.
fn null_of(rt: &impl Print, code: u8) -> io::Result<()> {
    behind(rt, 0, &[code / 32, code % 32 * 8])
}

// A MAC-END of that length code; a null stands 16 bits behind its start.
fn end_of(rt: &impl Print, code: u8) -> io::Result<()> {
    behind(rt, 0, &[0x60 + code / 8, code % 8 * 32, 0x00, 0x10])
}

// A MAC-RESOURCE of that length code for SSI 1, 43 bits; a null stands 48 bits behind its start.
fn ssi_of(rt: &impl Print, code: u8) -> io::Result<()> {
    behind(
        rt,
        0,
        &[
            code / 32,
            code % 32 * 8 + 1,
            0x00,
            0x00,
            0x01,
            0x00,
            0x00,
            0x10,
        ],
    )
}

fn address_types(rt: &impl Print) -> io::Result<()> {
    behind(rt, 0, &[0x00, 0x18])?;
    behind(rt, 0, &[0x01, 0x09, 0xab, 0xcd, 0xef, 0x00])?;
    behind(rt, 0, &[0x09, 0x0a, 0xc2, 0x40])?;
    behind(rt, 0, &[0x01, 0x0b, 0xab, 0xcd, 0xef, 0xc8])?;
    behind(rt, 0, &[0x01, 0x0c, 0xab, 0xcd, 0xef, 0x6b, 0x40])?;
    behind(
        rt,
        0,
        &[0x01, 0x0d, 0xab, 0xcd, 0xef, 0xff, 0xca, 0xcb, 0xf4, 0x02],
    )?;
    behind(
        rt,
        0,
        &[
            0x33, 0x0e, 0xab, 0xcd, 0xef, 0xfa, 0x71, 0x0d, 0x3c, 0x9a, 0x44,
        ],
    )?;
    behind(
        rt,
        0,
        &[
            0x01, 0x0f, 0xab, 0xcd, 0xef, 0x00, 0x7f, 0xff, 0xac, 0xbf, 0x40, 0x20,
        ],
    )
}

// Three codes that are tried, the last of them 33, and every code above.
fn length_codes(rt: &impl Print) -> io::Result<()> {
    for code in [1, 2, 33].into_iter().chain(34..64) {
        null_of(rt, code)?;
    }
    for code in [1, 2, 33].into_iter().chain(34..64) {
        end_of(rt, code)?;
    }
    for code in [5, 6, 33].into_iter().chain(34..64) {
        ssi_of(rt, code)?;
    }
    Ok(())
}

// Headers that end one to five bits behind a PDU that ends at bit 264, then one bit behind one that ends at bit 256, and at bit 48.
fn passing(rt: &impl Print) -> io::Result<()> {
    behind(rt, 27, &[0x00, 0x36, 0x00, 0x00, 0x01, 0x10, 0x00])?;
    behind(rt, 26, &[0x00, 0x3a, 0x01, 0x62, 0xd3, 0xc9, 0xa4, 0x40])?;
    behind(rt, 28, &[0x00, 0x29, 0x00, 0x00, 0x01, 0x00])?;
    behind(
        rt,
        25,
        &[0x00, 0x41, 0x00, 0x00, 0x01, 0x34, 0xf2, 0x69, 0x10],
    )?;
    behind(rt, 27, &[0x00, 0x35, 0x00, 0x00, 0x01, 0x00, 0x80])?;
    behind(rt, 26, &[0x00, 0x36, 0x00, 0x00, 0x01, 0x10, 0x00])?;
    behind(rt, 0, &[0x00, 0x36, 0x00, 0x00, 0x01, 0x10, 0x00, 0x10])
}

pub(crate) fn run(rt: &impl Print) -> io::Result<()> {
    address_types(rt)?;
    length_codes(rt)?;
    passing(rt)
}
