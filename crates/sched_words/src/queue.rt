// The queue as words, RECORD_WORDS for each record.
ghost use Rattle.std.specs.Prelude.{◌≡◌, ◌+◌, ◌*◌, ◌<◌, ◌≤◌, true, false, ◌&&◌, ◌++◌, length, take, drop, replicate};
ghost use Rattle.std.proofs.lemmas.List.Edits.{sets};
ghost use Rattle.sizes.specs.Sizes.{per_timeslot, queue_places, store_octets};
ghost use Rattle.dl_record.specs.Record.{empty_record};
ghost use Rattle.dl_queue.specs.Questions.{sound_place, sound_queue};
ghost use Rattle.sched_words.specs.Words.{record_word_count, same_words, alloc_words, alloc_from, header_from, record_words};
ghost use Rattle.sched_words.specs.Words.{record_read, queue_words, records_read, queue_from, header_fits, illegal_header, offered_header, offered_from};
ghost use Rattle.sched_words.specs.Front.{begins};

use crate::word::{self, Field};
use crate::{ALLOC_WORDS, QUEUE_WORDS, RECORD_ALLOC, RECORD_WORDS};
use dl_record::{Kind, QueuedHeader, Record, TetraAddress};
use mac_pdus::ChanAllocElement;
use sizes::{CELL_OCTETS, PER_TIMESLOT, TIMESLOTS};

// Kept: a record's words by their number, here and where they are tested: a trait for structs, as `Field` is for single words, would name
// each field and its place as often.

pub fn alloc_words(o: Option<ChanAllocElement>) -> [u32; ALLOC_WORDS]
    ensures { result ≡ alloc_words o }
{
    let Some(c) = o else {
        return [0; ALLOC_WORDS];
    };
    [
        1,
        c.alloc_type.word(),
        c.ts_assigned.word(),
        c.ul_dl_assigned.word(),
        c.clch_permission.word(),
        c.cell_change_flag.word(),
        c.carrier_num.word(),
        c.ext_carrier_num_flag.word(),
        c.mon_pattern.word(),
        c.frame18_mon_pattern.word(),
    ]
}

fn record_words(r: Record) -> [u32; RECORD_WORDS]
    ensures { result ≡ record_words r }
{
    let h = r.header;
    let mut words = [0; RECORD_WORDS];
    words[..RECORD_ALLOC].copy_from_slice(&[
        r.kind.word(),
        r.address.kind.word(),
        r.address.number,
        r.tag.word(),
        h.pos_of_grant.word(),
        h.encryption_mode.word(),
        h.random_access_flag.word(),
        h.event_label.word(),
        h.usage_marker.word(),
        h.power_control_element.word(),
        h.slot_granting_element.word(),
    ]);
    words[RECORD_ALLOC..RECORD_ALLOC + ALLOC_WORDS].copy_from_slice(&alloc_words(
        h.chan_alloc_element,
    ));
    words[RECORD_ALLOC + ALLOC_WORDS..].copy_from_slice(&[r.bits.word(), r.sent.word()]);
    words
}

// The channel allocation of the words that begin with it.
pub fn alloc_from(words: &[u32; ALLOC_WORDS]) -> Option<ChanAllocElement>
    ensures { result ≡ alloc_from words.now }
{
    if words[0] == 0 {
        return None;
    }
    Some(ChanAllocElement {
        alloc_type: Field::from_word(words[1]),
        ts_assigned: Field::from_word(words[2]),
        ul_dl_assigned: Field::from_word(words[3]),
        clch_permission: Field::from_word(words[4]),
        cell_change_flag: Field::from_word(words[5]),
        carrier_num: Field::from_word(words[6]),
        ext_carrier_num_flag: Field::from_word(words[7]),
        mon_pattern: Field::from_word(words[8]),
        frame18_mon_pattern: Field::from_word(words[9]),
    })
}

fn header_from(words: &[u32; RECORD_WORDS]) -> QueuedHeader
    ensures { result ≡ header_from words.now }
{
    QueuedHeader {
        pos_of_grant: Field::from_word(words[4]),
        encryption_mode: Field::from_word(words[5]),
        random_access_flag: Field::from_word(words[6]),
        event_label: Field::from_word(words[7]),
        usage_marker: Field::from_word(words[8]),
        power_control_element: Field::from_word(words[9]),
        slot_granting_element: Field::from_word(words[10]),
        chan_alloc_element: alloc_from(words[RECORD_ALLOC..].first_chunk().unwrap()),
    }
}

fn record_read(words: &[u32; RECORD_WORDS]) -> Record
    ensures { result ≡ record_read words.now }
{
    Record {
        kind: Field::from_word(words[0]),
        address: TetraAddress {
            kind: Field::from_word(words[1]),
            number: words[2],
        },
        tag: Field::from_word(words[3]),
        header: header_from(words),
        bits: Field::from_word(words[21]),
        sent: Field::from_word(words[22]),
    }
}

// The records of a timeslot, the first of them at `first`: n are read, and the empty one stands for the others.
// Kept: `n` with its bound, since a build takes sixteen records and how many of them are queued.
pub fn records_read(words: &[u32; QUEUE_WORDS], first: usize, n: usize) -> [Record; PER_TIMESLOT]
    requires { (first + per_timeslot ≤ queue_places) × (n ≤ per_timeslot) }
    ensures { result ≡ take n (take per_timeslot (drop first (records_read words.now))) ++ drop n (replicate per_timeslot empty_record) }
{
    // Kept: `iter_mut` with a zip is no plainer than the index, and a proof knows no element after `iter_mut`.
    let stored = words.as_chunks::<RECORD_WORDS>().0;
    let mut records = [Record::EMPTY; PER_TIMESLOT];
    for k in 0..n {
        records[k] = record_read(&stored[first + k]);
    }
    records
}

// ---- words that are a record's: each fits its field

// Kept: each word is tested by its field, beside the functions above: the words read and written again, and compared, take longer (the
// question of a full queue 2,202 ns in place of 2,023, of an empty one 394 in place of 365).

// Are ten words those of the channel allocation that is read from them?
fn alloc_fits(words: &[u32; ALLOC_WORDS]) -> bool
    ensures { result ≡ begins (alloc_words (alloc_from words.now)) words.now }
{
    if words[0] == 0 {
        return word::all_zero(&words[1..ALLOC_WORDS]);
    }
    (words[0] == 1)
        & word::fits::<u8>(words[1])
        & word::fits::<u8>(words[2])
        & word::fits::<u8>(words[3])
        & word::fits::<u8>(words[4])
        & word::fits::<u8>(words[5])
        & word::fits::<u16>(words[6])
        & word::fits::<u8>(words[7])
        & word::fits::<u8>(words[8])
        & word::fits::<Option<u8>>(words[9])
}

// Are words 3 to 20 those of the tag and the header that are read from them?
fn header_fits(words: &[u32; RECORD_WORDS]) -> bool
    ensures { result ≡ header_fits words.now }
{
    word::fits::<Option<u16>>(words[3])
        & word::fits::<u8>(words[4])
        & word::fits::<u8>(words[5])
        & word::fits::<u8>(words[6])
        & word::fits::<Option<u16>>(words[7])
        & word::fits::<Option<u8>>(words[8])
        & word::fits::<Option<u8>>(words[9])
        & word::fits::<Option<u8>>(words[10])
        & alloc_fits(words[RECORD_ALLOC..].first_chunk().unwrap())
}

// Are the words those of the record that is read from them? For a number any word will do.
fn record_fits(words: &[u32; RECORD_WORDS]) -> bool
    ensures { result ≡ same_words (record_words (record_read words.now)) words.now }
{
    word::fits::<Kind>(words[0])
        & word::fits::<u8>(words[1])
        & header_fits(words)
        & word::fits::<u16>(words[21])
        & word::fits::<u16>(words[22])
}

// ---- a record that is offered

// A header that question 6 refuses.
// Kept: a header, and by `saturated` an address kind and a length, that are refused stand for words that are too wide: a record is offered
// whole, and its questions, 5 to 7, come behind that of the timeslot, in the crate that queues it.
fn no_header() -> QueuedHeader
    ensures { result ≡ illegal_header }
{
    QueuedHeader {
        encryption_mode: 255,
        ..QueuedHeader::EMPTY
    }
}

// The header of a record that is offered: words that no header has, and a tag that is too wide, make one that question 6 refuses.
fn offered_header(words: &[u32; RECORD_WORDS]) -> QueuedHeader
    ensures { result ≡ offered_header words.now }
{
    if !header_fits(words) {
        return no_header();
    }
    header_from(words)
}

// A record that is offered. The words of kind and sent do not count.
pub fn offered_from(words: &[u32; RECORD_WORDS]) -> Record
    ensures { result ≡ offered_from words.now }
{
    Record::offered(
        TetraAddress {
            kind: word::saturated(words[1]),
            number: words[2],
        },
        Field::from_word(words[3]),
        offered_header(words),
        word::saturated(words[21]),
    )
}

// ---- question 1 for the words of the queue and the cells

// A filled place: its words are a record's, and it is sound, with its cell.
fn filled_is_sound(words: &[u32; RECORD_WORDS], cell: &[u8]) -> bool
    ensures { result ≡ same_words (record_words (record_read words.now)) words.now
        && sound_place true (record_read words.now) cell.now }
{
    record_fits(words) & dl_queue::filled_is_sound(record_read(words), cell)
}

// A place that is not filled: words and cell are 0.
fn unfilled_is_sound(words: &[u32; RECORD_WORDS], cell: &[u8]) -> bool
    ensures { result ≡ same_words (record_words (record_read words.now)) words.now
        && sound_place false (record_read words.now) cell.now }
{
    word::all_zero(words) & dl_sdu_store::cell_is_zero(cell)
}

// Question 1 for the queue and the store.
// Kept: the filled places of a timeslot and the others in two loops, each with one test: in one loop, with a branch for each place, the
// question of an empty queue took a fifth more.
// Kept: by the place `p` of words and cell; zips of the two, as for a queue of records, took as long, and two slices more are to be cut for them.
pub fn queue_is_sound(counts: [u8; TIMESLOTS], words: &[u32; QUEUE_WORDS], store: &[u8]) -> bool
    requires { length store.now ≡ store_octets }
    ensures { result ≡ sound_queue counts (queue_from words.now) store.now }
{
    let records = words.as_chunks::<RECORD_WORDS>().0;
    let cells = store.as_chunks::<CELL_OCTETS>().0;
    for (t, &count) in counts.iter().enumerate() {
        let n = count as usize;
        if PER_TIMESLOT < n {
            return false;
        }
        for i in 0..n {
            let p = PER_TIMESLOT * t + i;
            if !filled_is_sound(&records[p], &cells[p]) {
                return false;
            }
        }
        for i in n..PER_TIMESLOT {
            let p = PER_TIMESLOT * t + i;
            if !unfilled_is_sound(&records[p], &cells[p]) {
                return false;
            }
        }
    }
    true
}

// Stores the words of the record of a place.
pub fn put_record(words: &mut [u32; QUEUE_WORDS], place: usize, r: Record)
    requires { place < queue_places }
    ensures { words.new ≡ sets words.old (record_word_count * place) (record_words r) }
{
    let at = RECORD_WORDS * place;
    words[at..at + RECORD_WORDS].copy_from_slice(&record_words(r));
}

// Stores the words of records, the first of them at the place `first`.
pub fn put_records(words: &mut [u32; QUEUE_WORDS], first: usize, records: &[Record])
    requires { first + length records.now ≤ queue_places }
    ensures { words.new ≡ sets words.old (record_word_count * first) (queue_words records.now) }
{
    for (j, r) in records.iter().enumerate() {
        put_record(words, first + j, *r);
    }
}
