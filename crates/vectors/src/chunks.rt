// A record's next PDU in the last 60 bits of a block: document 01, "Cases", "Header 57, no SDU, 60 bits left: code 7"; and document 02, W-201, a record that
// may not start fragments.
ghost use Rattle.std.specs.Prelude.{◌≡◌, ◌≤◌};

use dl_record::{QueuedHeader, Record, TetraAddress};
use show::Hex;
use std::io;

const ADDRESS: TetraAddress = TetraAddress { kind: 0, number: 1 };

// A record without SDU whose header has an SSI, a usage marker and a grant: 57 bits.
fn with_marker_and_grant() -> Record
    ensures { (result.bits ≡ 0) × (result.sent ≡ 0) }
{
    let granted = Record::grant(ADDRESS, 0x10, Some(4));
    Record::offered(ADDRESS, None, granted.header, 0)
}

// A record with so many SDU bits, all zero: its header has 43 bits.
fn with_sdu(bits: u16) -> Record
    ensures { (result.bits ≡ bits) × (result.sent ≡ 0) }
{
    Record::offered(ADDRESS, None, QueuedHeader::EMPTY, bits)
}

// Where its PDU ends, in the last 60 bits of a block: at 208 if there is none.
fn in_60_bits(rt: &impl Print, bits: u16, may_start: bool) -> io::Result<()>
    requires { bits ≤ 2048 }
{
    let r = with_sdu(bits);
    if !r.header_is_legal() {
        return Ok(());
    }
    let store = [0u8; 256];
    let mut block = [0u8; 34];
    let chunk = bs_frag_chunk::get_next_chunk(&mut block, 208, 268, &store, 0, r, may_start);
    print!(rt; " to {}", chunk.next)
}

fn may_start(rt: &impl Print) -> io::Result<()> {
    print!(rt; "header 43, 60 bits left, 17 and 18 bits of SDU, may start:")?;
    in_60_bits(rt, 17, true)?;
    in_60_bits(rt, 18, true)?;
    print!(rt; " may not:")?;
    in_60_bits(rt, 17, false)?;
    in_60_bits(rt, 18, false)?;
    println!(rt)
}

// The PDU of a record with marker and grant.
fn header_57(rt: &impl Print) -> io::Result<()> {
    let r = with_marker_and_grant();
    if !r.header_is_legal() {
        return Ok(());
    }
    let store = [0u8; 256];
    let mut block = [0u8; 34];
    let chunk = bs_frag_chunk::get_next_chunk(&mut block, 208, 268, &store, 0, r, true);
    let length = bitbuffer::read_bits(&block, 215, 6);
    print!(rt; "header 57, 60 bits left: {}", Hex(&block))?;
    println!(rt; " to {} length {length}", chunk.next)
}

pub(crate) fn run(rt: &impl Print) -> io::Result<()> {
    header_57(rt)?;
    may_start(rt)
}
