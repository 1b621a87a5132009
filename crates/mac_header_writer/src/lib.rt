// The header writer: one MAC-RESOURCE header into a buffer of its own.
#![tactic(auto)]

ghost use Rattle.std.specs.Prelude.{◌≡◌, ◌≤◌};
ghost use Rattle.mac_writer.specs.Writer.{room_for, WrittenAs};

use mac_pdus::{MacResource, ResourceHeader};
use questions::Refusal;
use sizes::ADDRESS_NUMBERS;

// Whether `n` bits from bit `at` on stand in that many octets.
#[tactic(auto, unfolding(mac_writer::specs::Writer::room_for))]
fn room_for(octets: usize, at: usize, n: usize) -> bool
    ensures { result ≡ room_for octets at n }
{
    at.checked_add(n)
        .is_some_and(|end| end.div_ceil(8) <= octets)
}

// Writes the header from bit `at` on and answers the position after it, or refuses and alters nothing.
pub fn write_header(buf: &mut [u8], at: usize, h: MacResource) -> Result<usize, Refusal>
    ensures { WrittenAs buf.old at h result buf.new }
{
    if h.number >= ADDRESS_NUMBERS {
        return Err(Refusal::Address);
    }
    if !mac_legal::legal_to_write(h) {
        return Err(Refusal::Header);
    }
    let r = ResourceHeader::from(h);
    if !room_for(buf.len(), at, r.compute_header_len()) {
        return Err(Refusal::NoRoom);
    }
    Ok(mac_resource_writer::put_resource(buf, at, r))
}
