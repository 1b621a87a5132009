// Records in the order in which they are taken, sent in a block.
#![tactic(auto)]

ghost use Rattle.std.specs.Prelude.{◌≡◌, List, [], ◌∷◌, ◌++◌, ℕ, ◌-◌, ◌*◌, ◌<◌, ◌≤◌, ◌^◌, length, get_or};
ghost use Rattle.sizes.specs.Sizes.{per_timeslot};
ghost use Rattle.bitbuffer.specs.Bits.{bits_of, written};
ghost use Rattle.mac_reader.specs.PduList.{block_bits};
ghost use Rattle.dl_queue.specs.Queue.{Item, item};
ghost use Rattle.dl_send.specs.Send.{staying, tag_in, tags_of, null_in};
ghost use Rattle.dl_send.specs.Arrays.{records_at, places_at, progress_with, sent_of, CanSend, BuiltAs};

use bs_frag::ChunkOutcome;
use dl_merge::Merged;
use dl_record::{Kind, Record};
use sizes::{NO_PLACE, PER_TIMESLOT};

// Tags, with zeros behind them.
// Kept: an array with a count, no ArrayVec: the C interface hands out both as they stand, the zeros too.
#[derive(Clone, Copy)]
pub struct Tags {
    pub tags: [u16; PER_TIMESLOT],
    pub tag_count: u8,
}

// What stays, with the places that it comes from, and the tags of what is finished.
// Kept: two arrays and a count, no list of pairs: the records are the timeslot's places as they are stored, the empty ones too, and the cells are moved
// by the places.
#[derive(Clone, Copy)]
pub struct Progress {
    pub records: [Record; PER_TIMESLOT],
    pub from: [u8; PER_TIMESLOT],
    pub left: usize,
    pub tags: Tags,
}

impl Progress {
    const NONE: Progress = Progress {
        records: [Record::EMPTY; PER_TIMESLOT],
        from: [NO_PLACE; PER_TIMESLOT],
        left: 0,
        tags: Tags {
            tags: [0; PER_TIMESLOT],
            tag_count: 0,
        },
    };

    // A record stays.
    fn keep(&mut self, r: Record, place: u8)
        requires { self.old.left < per_timeslot }
        ensures { (xs : List (Item ℕ)) (ts : List ℕ) → self.old ≡ progress_with xs ts → self.new ≡ progress_with (xs ++ item r place ∷ []) ts }
    {
        self.records[self.left] = r;
        self.from[self.left] = place;
        self.left += 1;
    }

    // A record of this tag is finished.
    fn finish(&mut self, tag: Option<u16>)
        requires { self.old.tags.tag_count < per_timeslot }
        ensures { (xs : List (Item ℕ)) (ts : List ℕ) → self.old ≡ progress_with xs ts → self.new ≡ progress_with xs (ts ++ tag_in tag) }
    {
        if let Some(tag) = tag {
            self.tags.tags[self.tags.tag_count as usize] = tag;
            self.tags.tag_count += 1;
        }
    }

    // Notes what becomes of a record, from `place`, after its turn.
    fn note(&mut self, outcome: ChunkOutcome, r: Record, place: u8)
        requires { (self.old.left < per_timeslot) × (self.old.tags.tag_count < per_timeslot) }
        ensures { (xs : List (Item ℕ)) (ts : List ℕ) → self.old ≡ progress_with xs ts
            → self.new ≡ progress_with (xs ++ staying outcome (item r place)) (ts ++ tags_of outcome r.tag) }
    {
        match outcome {
            ChunkOutcome::Finished => self.finish(r.tag),
            ChunkOutcome::Waiting => self.keep(
                Record {
                    kind: Kind::Waiting,
                    sent: 0,
                    ..r
                },
                place,
            ),
            ChunkOutcome::Started(sent) => self.keep(
                Record {
                    kind: Kind::Started,
                    sent,
                    ..r
                },
                place,
            ),
        }
    }
}

// The null PDU, where 16 bits or more are left.
fn put_null(block: &mut [u8], at: usize, w: usize)
    requires { (at ≤ w) × (w ≤ 8 * length block.old) × (8 * length block.old < 2 ^ 64) }
    ensures { bits_of block.new ≡ written (bits_of block.old) at (block_bits (null_in (w - at))) }
{
    if w - at < 16 {
        return;
    }
    mac_writer::put_null(block, at);
}

// Builds a block of `w` bits of records in the order in which they are taken, each by where it stands among those merged, and then the null PDU.
// All octets of the block are written. Once a record has written nothing, none starts fragments.
pub fn build_records(
    block: &mut [u8],
    w: usize,
    store: &[u8],
    first: usize,
    merged: &Merged,
    order: &[u8],
) -> Progress
    requires can_send { CanSend (length block.old) w store.now first (records_at order.now merged.now.records)
        (places_at order.now merged.now.from) (length order.now) }
    requires by_index { (i : ℕ) → i < length order.now → get_or order.now i 0 < per_timeslot }
    ensures { BuiltAs (length block.old) block.new result
        (sent_of store.now first w (records_at order.now merged.now.records) (places_at order.now merged.now.from) (length order.now)) }
{
    block.fill(0);
    let mut progress = Progress::NONE;
    let mut at = 0;
    let mut may_start = true;
    for stands in order {
        let r = merged.records[*stands as usize];
        let place = merged.from[*stands as usize];
        let cell = first + place as usize % PER_TIMESLOT;
        let chunk = bs_frag_chunk::get_next_chunk(block, at, w, store, cell, r, may_start);
        progress.note(chunk.outcome, r, place);
        may_start &= at < chunk.next;
        at = chunk.next;
    }
    put_null(block, at, w);
    progress
}
