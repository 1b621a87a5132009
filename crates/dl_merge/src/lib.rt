// Merging: grants and acks go into the records of their timeslot; each record with the place that it comes from.
#![tactic(auto)]

ghost use Rattle.std.specs.Prelude.{◌≡◌, true, false, ℕ, ◌<◌, ◌≤◌, length, get_or, position};
ghost use Rattle.sizes.specs.Sizes.{per_timeslot};
ghost use Rattle.dl_record.specs.Record.{empty_record};
ghost use Rattle.dl_record.specs.Kind.{is_grant_or_ack, is_kept};
ghost use Rattle.dl_merge.specs.Merge.{with_grant, with_ack, joined_header, joined, minimal, takes_number, only};
ghost use Rattle.dl_merge.specs.Places.{counted, merge_places, merged_of, pushed};

use dl_record::{Kind, QueuedHeader, Record};
use sizes::{NO_PLACE, PER_TIMESLOT};

// A timeslot's records with the places that they come from.
// Kept: NO_PLACE stands for none, no Option: it comes behind all places, so that whether a place is overtaken, and which cell is read for a record with
// no bits, need no case for none, as they would of an Option.
// Kept: two arrays and a count, no list of pairs: where nothing is to merge the caller's array goes on as it is, and pairs would be made one by one.
// Kept: that `count` is at most sixteen is a clause of those that take one, no ghost field: `merged_of` is one of any list, so it has no such proof.
#[derive(Clone, Copy)]
pub struct Merged {
    pub records: [Record; PER_TIMESLOT],
    pub from: [u8; PER_TIMESLOT],
    pub count: u8,
}

impl Merged {
    const NONE: Merged = Merged {
        records: [Record::EMPTY; PER_TIMESLOT],
        from: [NO_PLACE; PER_TIMESLOT],
        count: 0,
    };

    // A record joins the end.
    fn push(&mut self, r: Record, place: u8)
        requires { self.old.count < per_timeslot }
        ensures { self.new ≡ pushed self.old r place }
    {
        let end = self.count as usize;
        self.records[end] = r;
        self.from[end] = place;
        self.count += 1;
    }
}

// A header `h` with the grant of `g`; the marker only if there was none.
fn with_grant(g: QueuedHeader, h: QueuedHeader) -> QueuedHeader
    ensures { result ≡ with_grant g h }
{
    QueuedHeader {
        usage_marker: h.usage_marker.or(g.usage_marker),
        slot_granting_element: g.slot_granting_element,
        ..h
    }
}

// A header with the random-access flag.
fn with_ack(h: QueuedHeader) -> QueuedHeader
    ensures { result ≡ with_ack h }
{
    QueuedHeader {
        random_access_flag: 1,
        ..h
    }
}

// The header that a grant or ack of kind `k` leaves.
fn joined_header(k: Kind, g: QueuedHeader, h: QueuedHeader) -> QueuedHeader
    ensures { result ≡ joined_header k g h }
{
    match k {
        Kind::Grant => with_grant(g, h),
        Kind::Ack => with_ack(h),
        Kind::Record | Kind::Waiting | Kind::Started => h,
    }
}

// A record `r` that the grant or ack `g` has joined.
fn joined_record(g: Record, r: Record) -> Record
    ensures { result ≡ joined g r }
{
    Record {
        header: joined_header(g.kind, g.header, r.header),
        ..r
    }
}

// A record with nothing but an address, and a grant or an acknowledgement.
fn dl_make_minimal_resource(g: Record) -> Record
    ensures { result ≡ minimal g }
{
    let header = QueuedHeader {
        random_access_flag: u8::from(g.kind == Kind::Ack),
        usage_marker: g.header.usage_marker,
        slot_granting_element: g.header.slot_granting_element,
        ..QueuedHeader::EMPTY
    };
    Record {
        kind: Kind::Record,
        address: g.address,
        header,
        ..Record::EMPTY
    }
}

// Whether a record takes a grant or ack with this number.
#[tactic(auto, unfolding(crate::specs::Merge::takes_number))]
fn takes_number(r: Record, number: u32) -> bool
    ensures { result ≡ takes_number number r }
{
    r.kind.is_record() & (r.address.number == number)
}

// The first of the records that takes `number`.
fn dl_get_scheduled_resource_for_ssi(records: &[Record], number: u32) -> Option<usize>
    ensures { result ≡ position (takes_number number) records.now }
{
    records.iter().position(|r| takes_number(*r, number))
}

// Is none of the records a grant or an ack? Then they are merged already.
pub fn none_to_merge(records: &[Record]) -> bool
    ensures { result ≡ true → (i : ℕ) → i < length records.now → is_grant_or_ack (get_or records.now i empty_record).kind ≡ false }
{
    !records.iter().any(|r| r.kind.is_grant_or_ack())
}

// What stays of the records when all grants and acks are taken out.
fn dl_take_all_grants_and_acks(records: &[Record]) -> Merged
    requires { length records.now ≤ per_timeslot }
    ensures { result ≡ merged_of (only is_kept (counted 0 (length records.now) records.now)) }
{
    let mut kept = Merged::NONE;
    for (i, r) in records.iter().enumerate() {
        if !r.kind.is_grant_or_ack() {
            kept.push(*r, i as u8);
        }
    }
    kept
}

// A timeslot's records merged: to those that stay each grant or ack goes in queue order.
pub fn dl_integrate_sched_elems_for_timeslot(records: &[Record]) -> Merged
    requires { length records.now ≤ per_timeslot }
    ensures { result ≡ merged_of (merge_places (counted 0 (length records.now) records.now)) }
{
    let mut merged = dl_take_all_grants_and_acks(records);
    for g in records {
        if g.kind.is_grant_or_ack() {
            let count = merged.count as usize;
            match dl_get_scheduled_resource_for_ssi(&merged.records[..count], g.address.number) {
                Some(at) => merged.records[at] = joined_record(*g, merged.records[at]),
                None => merged.push(dl_make_minimal_resource(*g), NO_PLACE),
            }
        }
    }
    merged
}
