// The block reader: lists the headers of the PDUs in a signalling block, or says that the block is malformed (document 01, question 12).
#![tactic(auto)]

ghost use Rattle.std.specs.Prelude.{◌≡◌, ◌+◌, ◌*◌, ◌<◌, ◌≤◌, ◌^◌, [], length, IfOk, IfErr};
ghost use Rattle.questions.specs.Questions.{refusal_number};
ghost use Rattle.sizes.specs.Sizes.{block_octets};
ghost use Rattle.bitbuffer.specs.Bits.{bits_of};
ghost use Rattle.mac_reader.specs.Reader.{octets_inside, header_end, starts_fragment, stops_after, well_placed, resource_step, end_at};
ghost use Rattle.mac_reader.specs.Reader.{fragment_at, pdu_at, read_pdus, most_pdus, headers, no_headers, reply_of, reading_of, read_block};

use arrayvec::ArrayVec;
use mac_pdus::{MacEndDl, MacFragDl, PduHeader, ResourceHeader};
use mac_resource_reader::Cursor;
use questions::Refusal;
use sizes::{BLOCK_OCTETS, BLOCK_WIDTH};

// The most PDUs that a block holds.
pub const MOST_PDUS: usize = 16;

// A header and the bit position where it stands.
#[derive(Clone, Copy)]
pub struct PlacedHeader {
    pub at: usize,
    pub header: PduHeader,
}

// What `ArrayVec` puts where no header stands.
impl Default for PlacedHeader {
    ghost use Rattle.mac_reader.specs.Reader.{no_header};

    ghost is_default = { λ p. p ≡ no_header };

    fn default() -> PlacedHeader {
        PlacedHeader {
            at: 0,
            header: PduHeader::Frag(MacFragDl { fill_bits: 0 }),
        }
    }
}

// The header at a position of a block, and where the next PDU begins, or none if the reader stops after this one.
type PduStep = Result<(PduHeader, Option<usize>), Refusal>;

// Where the header of a PDU that ends at `end` may end, in a block of `w` bits.
fn header_end(w: usize, end: usize) -> usize
    requires { end + 8 < 2 ^ 64 }
    ensures { result ≡ header_end w end }
{
    if w < end + 8 { w } else { end }
}

fn starts_fragment(r: ResourceHeader) -> bool
    ensures { result ≡ starts_fragment r }
{
    !r.address.is_null() && r.length_ind == 63
}

fn stops_after(r: ResourceHeader) -> bool
    ensures { result ≡ stops_after r }
{
    r.address.is_null() || r.length_ind == 63
}

// A position in a block of `w` bits, where a PDU begins.
#[derive(Clone, Copy)]
struct Start {
    w: usize,
    at: usize,
    ghost bounded: { at + 4096 < 2 ^ 64 },
}

impl Start {
    // Where a PDU of that many octets ends.
    fn end(self, code: u8) -> usize
        ensures { result ≡ self.at + 8 * code }
    {
        self.at + 8 * code as usize
    }

    // Whether a PDU of that many octets, 2 to 34, stands inside the block.
    #[tactic(auto, unfolding(crate::specs::Reader::octets_inside))]
    fn octets_inside(self, code: u8) -> bool
        ensures { result ≡ octets_inside self.w self.at code }
    {
        (2..=34).contains(&code) && self.end(code) <= self.w
    }

    // Whether a MAC-RESOURCE may stand here with a header that ends at `after`.
    #[tactic(auto, unfolding(crate::specs::Reader::well_placed))]
    fn well_placed(self, r: ResourceHeader, after: usize) -> bool
        ensures { result ≡ well_placed self.w self.at r after }
    {
        let limit = header_end(self.w, self.end(r.length_ind));
        let inside = self.octets_inside(r.length_ind);
        mac_legal::writer_takes(r)
            && after <= self.w
            && (starts_fragment(r) || (inside && after <= limit))
    }

    // A MAC-RESOURCE whose header ends at `after`.
    #[tactic(auto, unfolding(crate::specs::Reader::resource_step))]
    fn resource_step(self, r: ResourceHeader, after: usize) -> PduStep
        ensures { result ≡ resource_step self.w self.at r after }
    {
        if !self.well_placed(r, after) {
            return Err(Refusal::Malformed);
        }
        let next = if stops_after(r) {
            None
        } else {
            Some(self.end(r.length_ind))
        };
        Ok((PduHeader::Resource(r), next))
    }

    // Reads a MAC-END from its fourth bit on.
    #[tactic(auto, unfolding(crate::specs::Reader::end_at, crate::specs::Reader::end_step, bitbuffer::specs::Bits::field))]
    fn read_end(self, cursor: &mut Cursor) -> PduStep
        requires { cursor.old.at + 10 ≤ 8 * length cursor.old.octets.now }
        ensures { result ≡ end_at self.w (bits_of cursor.old.octets.now) self.at cursor.old.at }
    {
        let e = MacEndDl {
            fill_bits: cursor.read(1) as u8,
            pos_of_grant: cursor.read(1) as u8,
            length_ind: cursor.read(6) as u8,
        };
        let granted = cursor.read(1) != 0;
        let allocated = cursor.read(1) != 0;
        if granted || allocated || !self.octets_inside(e.length_ind) {
            return Err(Refusal::Malformed);
        }
        Ok((PduHeader::End(e), Some(self.end(e.length_ind))))
    }

    // Reads a MAC-FRAG or MAC-END from its third bit on.
    #[tactic(auto, unfolding(crate::specs::Reader::fragment_at, bitbuffer::specs::Bits::field))]
    fn read_fragment(self, cursor: &mut Cursor) -> PduStep
        requires { cursor.old.at + 11 ≤ 8 * length cursor.old.octets.now }
        ensures { result ≡ fragment_at self.w (bits_of cursor.old.octets.now) self.at cursor.old.at }
    {
        if cursor.read(1) == 0 {
            let fill_bits = cursor.read(1) as u8;
            return Ok((PduHeader::Frag(MacFragDl { fill_bits }), None));
        }
        self.read_end(cursor)
    }

    // Reads the PDU, behind whose start there is room for the longest header.
    #[tactic(auto, unfolding(crate::specs::Reader::pdu_at, bitbuffer::specs::Bits::field))]
    fn read_pdu(self, s: &[u8]) -> PduStep
        requires { (self.at + 92 ≤ 8 * length s.now) × (8 * length s.now < 2 ^ 64) }
        ensures { result ≡ pdu_at self.w (bits_of s.now) self.at }
    {
        let mut cursor = Cursor {
            octets: s,
            at: self.at,
        };
        match cursor.read(2) {
            0 => {
                let r = cursor.read_resource();
                self.resource_step(r, cursor.at)
            }
            1 => self.read_fragment(&mut cursor),
            _ => Err(Refusal::Malformed),
        }
    }
}

// Lists the headers of the PDUs in the first `w` bits, at most 16, in a list that has none.
fn read_list(
    s: &[u8],
    w: usize,
    list: &mut ArrayVec<PlacedHeader, MOST_PDUS>,
) -> Result<(), Refusal>
    requires { (w + 76 ≤ 8 * length s.now) × (8 * length s.now + 4096 < 2 ^ 64) × (list.old.items ≡ []) }
    ensures { IfOk result (λ _. reply_of (headers list.new.items) ≡ reply_of (read_pdus most_pdus w (bits_of s.now) 0))
        × IfErr result (λ r. no_headers (refusal_number r) ≡ reply_of (read_pdus most_pdus w (bits_of s.now) 0)) }
{
    let mut at = 0;
    while at + 16 <= w && !list.is_full() {
        let start = Start { w, at };
        let (header, next) = start.read_pdu(s)?;
        list.push(PlacedHeader { at, header });
        match next {
            None => return Ok(()),
            Some(next) => at = next,
        }
    }
    Ok(())
}

// Reads a block: the headers of its PDUs with their bit positions, or a refusal.
pub fn read_block(block: &[u8]) -> Result<ArrayVec<PlacedHeader, MOST_PDUS>, Refusal>
    ensures { reading_of result ≡ read_block block_octets block.now }
{
    if block.len() != BLOCK_OCTETS {
        return Err(Refusal::Lengths);
    }
    if block[BLOCK_OCTETS - 1] % 16 != 0 {
        return Err(Refusal::Malformed);
    }
    // Zeros behind the block make room for the longest header.
    let mut padded = [0; BLOCK_OCTETS + 14];
    padded[..BLOCK_OCTETS].copy_from_slice(block);
    let mut headers = ArrayVec::new();
    read_list(&padded, BLOCK_WIDTH, &mut headers)?;
    Ok(headers)
}
