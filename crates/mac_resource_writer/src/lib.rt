// The writer of one MAC-RESOURCE header, part by part (EN 300 392-2, 21.4.3.1).
#![tactic(auto)]

ghost use Rattle.std.specs.Prelude.{◌≡◌, ◌+◌, ◌*◌, ◌<◌, ◌≤◌, ◌^◌, length};
ghost use Rattle.bitbuffer.specs.Bits.{bits_of, value_bits, Wrote};
ghost use Rattle.mac_pdus.specs.Headers.{opt_bits, address_bits, chan_alloc_bits, opt_chan_alloc_bits, fixed_bits, resource_bits};
ghost use Rattle.mac_pdus.specs.Within.{ResourceWithin};

use mac_pdus::{Address, ChanAllocElement, ResourceHeader};
use mac_writer::Piece;

// The thirteen bits before the address type.
#[tactic(auto, using(std::proofs::lemmas::List::append_assoc), unfolding(mac_pdus::specs::Headers::fixed_bits))]
fn fixed_piece(r: ResourceHeader) -> Piece
    ensures { value_bits result.width result.value ≡ fixed_bits r.fill_bits r.pos_of_grant r.encryption_mode r.random_access_flag r.length_ind }
{
    Piece::field(2, 0)
        .then(1, r.fill_bits as u64)
        .then(1, r.pos_of_grant as u64)
        .then(2, r.encryption_mode as u64)
        .then(1, r.random_access_flag as u64)
        .then(6, r.length_ind as u64)
}

// The address type, and the address with its label or marker.
#[tactic(auto, using(std::proofs::lemmas::List::append_assoc), unfolding(mac_pdus::specs::Headers::address_bits, mac_pdus::specs::Headers::address_type))]
fn address_piece(a: Address) -> Piece
    ensures { value_bits result.width result.value ≡ address_bits a }
{
    let code = Piece::field(3, a.addr_type() as u64);
    match a {
        Address::Null => code,
        Address::EventLabel(e) => code.then(10, e as u64),
        Address::Ssi(n) | Address::Ussi(n) | Address::Smi(n) => code.then(24, n as u64),
        Address::SsiUsageMarker(n, m) => code.then(24, n as u64).then(6, m as u64),
        Address::SsiEventLabel(n, e) | Address::SmiEventLabel(n, e) => {
            code.then(24, n as u64).then(10, e as u64)
        }
    }
}

// The channel allocation element, 25 bits, or 27 with the frame-18 pattern.
#[tactic(auto, using(std::proofs::lemmas::List::append_assoc), unfolding(mac_pdus::specs::Headers::chan_alloc_bits))]
fn chan_alloc_piece(c: ChanAllocElement) -> Piece
    ensures size { result.width ≤ 27 }
    ensures bits { value_bits result.width result.value ≡ chan_alloc_bits c }
{
    let piece = Piece::field(2, c.alloc_type as u64)
        .then(4, c.ts_assigned as u64)
        .then(2, c.ul_dl_assigned as u64)
        .then(1, c.clch_permission as u64)
        .then(1, c.cell_change_flag as u64)
        .then(12, c.carrier_num as u64)
        .then(1, c.ext_carrier_num_flag as u64)
        .then(2, c.mon_pattern as u64);
    match c.frame18_mon_pattern {
        None => piece,
        Some(frame18) => piece.then(2, frame18 as u64),
    }
}

// A flag, and the element of `width` bits if there is one.
#[tactic(auto, unfolding(mac_pdus::specs::Headers::opt_bits))]
fn opt_piece(width: usize, element: Option<u8>) -> Piece
    requires { width ≤ 8 }
    ensures { value_bits result.width result.value ≡ opt_bits width element }
{
    Piece::optional(element.map(|v| Piece::field(width, v as u64)))
}

// The flag of a channel allocation, and the element if there is one.
#[tactic(auto, unfolding(mac_pdus::specs::Headers::opt_chan_alloc_bits))]
fn opt_chan_alloc_piece(alloc: Option<ChanAllocElement>) -> Piece
    ensures { value_bits result.width result.value ≡ opt_chan_alloc_bits alloc }
{
    Piece::optional(alloc.map(chan_alloc_piece))
}

// Writes a MAC-RESOURCE header from `at` on and answers the position after it.
// Kept: octets and position stand apart, and each part's position is handed on: see `Piece::put`.
pub fn put_resource(s: &mut [u8], at: usize, r: ResourceHeader) -> usize
    requires { (at + length (resource_bits r) ≤ 8 * length s.old) × (at + length (resource_bits r) < 2 ^ 64) × ResourceWithin r }
    ensures { Wrote (bits_of s.old) at (bits_of s.new) result (resource_bits r) }
{
    let next = fixed_piece(r).put(s, at);
    let next = address_piece(r.address).put(s, next);
    if r.address.is_null() {
        return next;
    }
    let next = opt_piece(4, r.power_control_element).put(s, next);
    let next = opt_piece(8, r.slot_granting_element).put(s, next);
    opt_chan_alloc_piece(r.chan_alloc_element).put(s, next)
}
