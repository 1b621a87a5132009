// A PDU written whole: its header, a part of the record's SDU, and fill; what becomes of a record after its turn.
#![tactic(auto)]

ghost use Rattle.std.specs.Prelude.{◌≡◌, ◌+◌, ◌*◌, ◌<◌, ◌≤◌, ◌^◌, ◌++◌, length};
ghost use Rattle.bitbuffer.specs.Bits.{bits_of, Wrote};
ghost use Rattle.mac_pdus.specs.Headers.{resource_bits, frag_bits, end_bits};
ghost use Rattle.mac_pdus.specs.Within.{ResourceWithin};
ghost use Rattle.bs_frag.specs.NextPdu.{fill_flag, header_of, header_size, body_bits};

mod body;

pub use body::Body;
use dl_record::Record;
use mac_pdus::{MacEndDl, MacFragDl, ResourceHeader};

// What becomes of a record after its turn: finished, waiting, or started with so many SDU bits sent.
#[derive(Clone, Copy)]
pub enum ChunkOutcome {
    Finished,
    Waiting,
    Started(u16),
}

// Where the bits written end, and what becomes of the record.
#[derive(Clone, Copy)]
pub struct Chunk {
    pub next: usize,
    pub outcome: ChunkOutcome,
}

impl<'a> Body<'a> {
    // Writes it.
    fn put(self, block: &mut [u8], at: usize) -> usize
        requires { (at + self.n + self.fill ≤ 8 * length block.old) × (8 * length block.old < 2 ^ 64) }
        ensures { (result ≡ at + self.entry.n + self.entry.fill) × Wrote (bits_of block.old) at (bits_of block.new) result (body_bits self.entry) }
    {
        bitbuffer::copy_bits(block, at, self.store, self.from, self.n);
        fillbits::write(block, at + self.n, self.fill)
    }
}

// Kept: that a block has fewer than 2 ^ 64 bits is a clause of the four that write, as in mac_writer: a slice says no more of its length.

// The fill bit of a PDU with `n` fill bits.
#[tactic(auto, unfolding(crate::specs::NextPdu::fill_flag))]
pub fn fill_flag(n: usize) -> u8
    ensures { (result ≡ fill_flag n) × (result < 2) }
{
    u8::from(n != 0)
}

// The header of a record as it is written.
#[tactic(auto, unfolding(crate::specs::NextPdu::header_of))]
pub fn header_of(r: Record, fill: u8, len: u8) -> ResourceHeader
    ensures { result ≡ header_of r fill len }
{
    ResourceHeader::from(r.resource(fill, len))
}

// How many bits the header of a record has.
#[tactic(auto, unfolding(crate::specs::NextPdu::header_size))]
pub fn header_size(r: Record) -> usize
    ensures { (result ≡ header_size r) × (result ≤ 92) }
{
    header_of(r, 0, 0).compute_header_len()
}

// Writes a MAC-RESOURCE: its header, and what stands behind it.
pub fn put_resource(block: &mut [u8], at: usize, h: ResourceHeader, body: Body) -> usize
    requires room { (at + length (resource_bits h) + body.n + body.fill ≤ 8 * length block.old) × (8 * length block.old < 2 ^ 64) }
    requires within { ResourceWithin h }
    ensures { (result ≡ at + length (resource_bits h) + body.entry.n + body.entry.fill)
        × Wrote (bits_of block.old) at (bits_of block.new) result (resource_bits h ++ body_bits body.entry) }
{
    let next = mac_resource_writer::put_resource(block, at, h);
    body.put(block, next)
}

// Writes a MAC-FRAG.
pub fn put_frag(block: &mut [u8], at: usize, body: Body) -> usize
    requires { (at + 4 + body.n + body.fill ≤ 8 * length block.old) × (8 * length block.old < 2 ^ 64) }
    ensures { (result ≡ at + 4 + body.entry.n + body.entry.fill)
        × Wrote (bits_of block.old) at (bits_of block.new) result
        (frag_bits (record { fill_bits = fill_flag body.entry.fill }) ++ body_bits body.entry) }
{
    let header = MacFragDl {
        fill_bits: fill_flag(body.fill),
    };
    let next = mac_writer::put_frag(block, at, header);
    body.put(block, next)
}

// Writes a MAC-END.
pub fn put_end(block: &mut [u8], at: usize, octets: u8, body: Body) -> usize
    requires { (at + 13 + body.n + body.fill ≤ 8 * length block.old) × (8 * length block.old < 2 ^ 64) × (octets < 2 ^ 6) }
    ensures { (result ≡ at + 13 + body.entry.n + body.entry.fill)
        × Wrote (bits_of block.old) at (bits_of block.new) result
        (end_bits (record { fill_bits = fill_flag body.entry.fill; pos_of_grant = 0; length_ind = octets }) ++ body_bits body.entry) }
{
    let header = MacEndDl {
        fill_bits: fill_flag(body.fill),
        pos_of_grant: 0,
        length_ind: octets,
    };
    let next = mac_writer::put_end(block, at, header);
    body.put(block, next)
}
