// Writers of the short headers, MAC-FRAG, MAC-END and the null PDU, and of a run of bits.
#![tactic(auto)]

ghost use Rattle.std.specs.Prelude.{◌≡◌, ◌++◌, ◌+◌, ◌*◌, ◌<◌, ◌≤◌, ◌^◌, length};
ghost use Rattle.bitbuffer.specs.Bits.{bits_of, Wrote, value_bits};
ghost use Rattle.mac_pdus.specs.Headers.{resource_bits, frag_bits, end_bits, null_header};
ghost use Rattle.mac_pdus.specs.Within.{EndWithin};

use mac_pdus::{MacEndDl, MacFragDl};

// A run of up to 64 bits: the low `width` bits of `value`.
#[derive(Clone, Copy)]
pub struct Piece {
    pub width: usize,
    pub value: u64,
    pub ghost fits: { width ≤ 64 },
}

impl Piece {
    ghost use Rattle.mac_writer.specs.declared.Piece.{Piece};
    ghost use Rattle.mac_pdus.specs.Headers.{optional_bits, optional_length};

    // A field.
    // Kept: `width ≤ 64` is asked where a piece is made, by a literal at each call; from there on the type has it.
    pub fn field(width: usize, value: u64) -> Piece
        requires { width ≤ 64 }
        ensures { (result.width ≡ width) × (result.value ≡ value) }
    {
        Piece { width, value }
    }

    // The piece with a field behind it.
    pub fn then(self, width: usize, value: u64) -> Piece
        requires { (self.width + width ≤ 64) × (width < 64) }
        ensures { (result.width ≡ self.width + width) × (value_bits result.width result.value ≡ value_bits self.width self.value ++ value_bits width value) }
    {
        Piece {
            width: self.width + width,
            value: (self.value << width) + value % (1 << width),
        }
    }

    // A flag, and the element if there is one.
    pub fn optional(element: Option<Piece>) -> Piece
        requires { optional_length (λ (p : Piece). p.width) element ≤ 64 }
        ensures size { result.width ≡ optional_length (λ (p : Piece). p.width) element }
        ensures bits { value_bits result.width result.value ≡ optional_bits (λ (p : Piece). value_bits p.width p.value) element }
    {
        match element {
            None => Piece::field(1, 0),
            Some(piece) => Piece::field(1, 1).then(piece.width, piece.value),
        }
    }

    // Writes the piece and answers the position after it.
    // Kept: here and below octets and position stand apart, with `at + n < 2 ^ 64` asked of each. Tried: `Pen<'a> { octets: &'a mut [u8], at: usize }`, as
    // the readers have a `Cursor`; the proof of a function that makes a pen didn't close, what stands in `s` once the pen is let go was left open.
    pub fn put(self, s: &mut [u8], at: usize) -> usize
        requires { (at + self.width ≤ 8 * length s.old) × (at + self.width < 2 ^ 64) }
        ensures { (result ≡ at + self.width) × Wrote (bits_of s.old) at (bits_of s.new) result (value_bits self.width self.value) }
    {
        bitbuffer::put(s, at, self.width, self.value)
    }
}

// Writes the null PDU.
#[tactic(auto, using(mac_pdus::proofs::ShortHeaders::null_bits))]
pub fn put_null(s: &mut [u8], at: usize) -> usize
    requires { (at + 16 ≤ 8 * length s.old) × (at + 16 < 2 ^ 64) }
    ensures { (result ≡ at + 16) × Wrote (bits_of s.old) at (bits_of s.new) result (resource_bits null_header) }
{
    bitbuffer::put(s, at, 16, 16)
}

// Writes a MAC-FRAG header.
#[tactic(auto, using(std::proofs::lemmas::List::append_assoc), unfolding(mac_pdus::specs::Headers::frag_bits))]
pub fn put_frag(s: &mut [u8], at: usize, f: MacFragDl) -> usize
    requires { (at + 4 ≤ 8 * length s.old) × (at + 4 < 2 ^ 64) × (f.fill_bits < 2) }
    ensures { (result ≡ at + 4) × Wrote (bits_of s.old) at (bits_of s.new) result (frag_bits f) }
{
    let head = Piece::field(2, 1).then(1, 0);
    head.then(1, f.fill_bits as u64).put(s, at)
}

// Writes a MAC-END header.
#[tactic(auto, using(std::proofs::lemmas::List::append_assoc), unfolding(mac_pdus::specs::Headers::end_bits))]
pub fn put_end(s: &mut [u8], at: usize, e: MacEndDl) -> usize
    requires { (at + 13 ≤ 8 * length s.old) × (at + 13 < 2 ^ 64) × EndWithin e }
    ensures { (result ≡ at + 13) × Wrote (bits_of s.old) at (bits_of s.new) result (end_bits e) }
{
    let head = Piece::field(2, 1).then(1, 1);
    head.then(1, e.fill_bits as u64)
        .then(1, e.pos_of_grant as u64)
        .then(6, e.length_ind as u64)
        .then(1, 0)
        .then(1, 0)
        .put(s, at)
}
