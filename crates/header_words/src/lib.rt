// The headers of a block as words of 32 bits, for callers that have no Rattle types (the layout: specs/HeaderWords.antt).
#![tactic(auto)]

ghost use Rattle.std.specs.Prelude.{◌≡◌, ℕ, ◌<◌, ◌≤◌, ◌^◌, length, get_or};
ghost use Rattle.mac_pdus.specs.declared.PduHeader.{PduHeader};
ghost use Rattle.mac_reader.specs.declared.PlacedHeader.{PlacedHeader};
ghost use Rattle.mac_reader.specs.Reader.{most_pdus};
ghost use Rattle.sched_words.specs.Words.{word_at};
ghost use Rattle.header_words.specs.HeaderWords.{header_words, address_read, resource_read};
ghost use Rattle.header_words.specs.HeaderWords.{placed_words, list_words, resource_words, WordsWrittenAs};

use mac_pdus::{Address, MacEndDl, MacFragDl, MacResource, PduHeader, ResourceHeader};
use mac_reader::{MOST_PDUS, PlacedHeader};
use questions::Refusal;
use sched_words::queue;
use sched_words::word::Field;

// The words of a header, and of the headers that a block may have.
pub const HEADER_WORDS: usize = 24;

pub const LIST_WORDS: usize = HEADER_WORDS * MOST_PDUS;

// Where in a header's words its channel allocation begins.
const HEADER_ALLOC: usize = 13;

// ---- a header as words
// Kept: words by their number, as those of a record (queue.rt of sched_words).

fn resource_words(at: u32, r: ResourceHeader) -> [u32; HEADER_WORDS]
    ensures { result ≡ header_words at (PduHeader.Resource r) }
{
    let h = MacResource::from(r);
    let [a0, a1, a2, a3, a4, a5, a6, a7, a8, a9] = queue::alloc_words(r.chan_alloc_element);
    [
        at,
        0,
        r.fill_bits.word(),
        r.pos_of_grant.word(),
        r.encryption_mode.word(),
        r.random_access_flag.word(),
        r.length_ind.word(),
        r.address.addr_type().word(),
        h.number,
        h.event_label.unwrap_or(0).word(),
        h.usage_marker.unwrap_or(0).word(),
        r.power_control_element.word(),
        r.slot_granting_element.word(),
        a0,
        a1,
        a2,
        a3,
        a4,
        a5,
        a6,
        a7,
        a8,
        a9,
        0,
    ]
}

#[tactic(auto, unfolding(crate::specs::HeaderWords::header_words))]
fn frag_words(at: u32, f: MacFragDl) -> [u32; HEADER_WORDS]
    ensures { result ≡ header_words at (PduHeader.Frag f) }
{
    let fill = f.fill_bits.word();
    [
        at, 1, fill, 0, 0, 0, 0, 0, 0, 0, 0, 0, 0, 0, 0, 0, 0, 0, 0, 0, 0, 0, 0, 0,
    ]
}

#[tactic(auto, unfolding(crate::specs::HeaderWords::header_words))]
fn end_words(at: u32, e: MacEndDl) -> [u32; HEADER_WORDS]
    ensures { result ≡ header_words at (PduHeader.End e) }
{
    let fill = e.fill_bits.word();
    let position = e.pos_of_grant.word();
    let length = e.length_ind.word();
    [
        at, 2, fill, position, 0, 0, length, 0, 0, 0, 0, 0, 0, 0, 0, 0, 0, 0, 0, 0, 0, 0, 0, 0,
    ]
}

fn header_words(at: u32, h: PduHeader) -> [u32; HEADER_WORDS]
    ensures { result ≡ header_words at h }
{
    match h {
        PduHeader::Resource(r) => resource_words(at, r),
        PduHeader::Frag(f) => frag_words(at, f),
        PduHeader::End(e) => end_words(at, e),
    }
}

// A header with its bit position.
fn placed_words(p: PlacedHeader) -> [u32; HEADER_WORDS]
    requires { p.at < 2 ^ 32 }
    ensures { result ≡ placed_words p }
{
    header_words(p.at as u32, p.header)
}

// ---- and back

fn address_read(words: &[u32; HEADER_WORDS]) -> Address
    ensures { result ≡ address_read (word_at words.now 7) words.now }
{
    let number = words[8];
    let label = Field::from_word(words[9]);
    let marker = Field::from_word(words[10]);
    match words[7] {
        1 => Address::Ssi(number),
        2 => Address::EventLabel(label),
        3 => Address::Ussi(number),
        4 => Address::Smi(number),
        5 => Address::SsiEventLabel(number, label),
        6 => Address::SsiUsageMarker(number, marker),
        7 => Address::SmiEventLabel(number, label),
        _ => Address::Null,
    }
}

fn resource_read(words: &[u32; HEADER_WORDS]) -> ResourceHeader
    ensures { result ≡ resource_read words.now }
{
    ResourceHeader {
        fill_bits: Field::from_word(words[2]),
        pos_of_grant: Field::from_word(words[3]),
        encryption_mode: Field::from_word(words[4]),
        random_access_flag: Field::from_word(words[5]),
        length_ind: Field::from_word(words[6]),
        address: address_read(words),
        power_control_element: Field::from_word(words[11]),
        slot_granting_element: Field::from_word(words[12]),
        chan_alloc_element: queue::alloc_from(words[HEADER_ALLOC..].first_chunk().unwrap()),
    }
}

// Whether the words are those of the MAC-RESOURCE that is read from them: they are written again and compared.
fn is_resource(words: &[u32; HEADER_WORDS], r: ResourceHeader) -> bool
    requires { r ≡ resource_read words.now }
    ensures { result ≡ resource_words words.now }
{
    resource_words(words[0], r) == *words
}

// ---- the block reader's list

// Stores the words of the headers, and zeros behind them.
pub fn put_headers(words: &mut [u32; LIST_WORDS], headers: &[PlacedHeader])
    requires { (length headers.now ≤ most_pdus) × ((i : ℕ) (p : PlacedHeader) → i < length headers.now
        → (get_or headers.now i p).at < 2 ^ 32) }
    ensures { words.new ≡ list_words (length headers.now) headers.now }
{
    words.fill(0);
    // Kept: the place by `k`, since a proof knows no word after `chunks_exact_mut`.
    for (k, p) in headers.iter().enumerate() {
        let at = HEADER_WORDS * k;
        words[at..at + HEADER_WORDS].copy_from_slice(&placed_words(*p));
    }
}

// ---- the header writer

// Writes the header of the words from bit `at` on and answers the position after it, or refuses and alters nothing.
pub fn write_words(buf: &mut [u8], at: usize, words: &[u32]) -> Result<usize, Refusal>
    ensures { WordsWrittenAs buf.old at words.now result buf.new }
{
    let words = words.as_array().ok_or(Refusal::Lengths)?;
    let r = resource_read(words);
    if !is_resource(words, r) {
        return Err(Refusal::Header);
    }
    mac_header_writer::write_header(buf, at, MacResource::from(r))
}
