// The public entries: the functions over the caller's queue.
#![tactic(auto)]

ghost use Rattle.std.specs.Prelude.{◌≡◌, [], ◌∷◌, ◌+◌, ◌≤◌, ◌<◌, length, set};
ghost use Rattle.std.proofs.Math.Seq.{paste};
ghost use Rattle.sizes.specs.Sizes.{per_timeslot, queue_places, store_octets};
ghost use Rattle.questions.specs.Questions.{question, asked_number, number_of};
ghost use Rattle.dl_queue.specs.Questions.{sound_place, sound_places, sound_queue};
ghost use Rattle.sched_core.specs.Station.{with_queued};
ghost use Rattle.sched_core.specs.Questions.{memory, memory_questions};
ghost use Rattle.sched_core.specs.Replies.{queue_reply, request_reply};
ghost use Rattle.sched_core.specs.Calls.{outcome, request_call, ack_call, tma_call, build_call};
ghost use Rattle.bs_sched.specs.Entries.{build_left, left_by};

use dl_record::{Record, TetraAddress};
use dl_send::Tags;
use questions::Refusal;
pub use sched_core::{advance, new, ul_get_slot_owner, ul_get_usage};
use sched_core::{Station, ask};
use sched_enqueue::Joining;
use sizes::{
    BLOCK_OCTETS, CELL_OCTETS, PER_TIMESLOT, QUEUE_PLACES, STORE_OCTETS, TIMESLOT_OCTETS, TIMESLOTS,
};
use uplink::Grant;

// Question 1 for a place and its cell.
fn place_is_sound(filled: bool, r: Record, cell: &[u8]) -> bool
    ensures { result ≡ sound_place filled r cell.now }
{
    if filled {
        dl_queue::filled_is_sound(r, cell)
    } else {
        dl_queue::unfilled_is_sound(r, cell)
    }
}

// Question 1 for the places of a timeslot, of which the first n are filled, and their cells.
fn places_are_sound(
    records: &[Record; PER_TIMESLOT],
    cells: &[u8; TIMESLOT_OCTETS],
    n: usize,
) -> bool
    ensures { result ≡ sound_places per_timeslot n records.now cells.now }
{
    records
        .iter()
        .zip(cells.as_chunks::<CELL_OCTETS>().0)
        .enumerate()
        .all(|(i, (r, cell))| place_is_sound(i < n, *r, cell))
}

// Question 1 for records and cells.
fn queue_is_sound(queued: [u8; TIMESLOTS], queue: &[Record], store: &[u8]) -> bool
    requires { (length queue.now ≡ queue_places) × (length store.now ≡ store_octets) }
    ensures { result ≡ sound_queue queued queue.now store.now }
{
    queued
        .iter()
        .zip(queue.as_chunks::<PER_TIMESLOT>().0)
        .zip(store.as_chunks::<TIMESLOT_OCTETS>().0)
        .all(|((&n, records), cells)| {
            n as usize <= PER_TIMESLOT && places_are_sound(records, cells, n as usize)
        })
}

// Kept: station, queue and store are lent apart. A request and an acknowledgement only read the store, which the other calls write; and a
// type of three lent things would name a lifetime.

// Questions 1 and 2 over the station and the caller's queue and store. `lent` says whether what else is lent has its length.
#[tactic(auto, unfolding(questions::specs::Questions::ask))]
fn ask_memory(station: &Station, queue: &[Record], store: &[u8], lent: bool) -> Result<(), Refusal>
    ensures { number_of result ≡ asked_number (memory_questions (memory station.now queue.now store.now) (question lent 2 ∷ [])) }
{
    ask(station.is_sound(), Refusal::Unsound)?;
    ask(queue.len() == QUEUE_PLACES, Refusal::Lengths)?;
    ask(store.len() == STORE_OCTETS, Refusal::Lengths)?;
    ask(lent, Refusal::Lengths)?;
    ask(
        queue_is_sound(station.queued, queue, store),
        Refusal::Unsound,
    )
}

// Stores the first n records of a timeslot, from place `first` on.
// Kept: one statement, as a function: its clause says what is stored. In the body of the build it left two more goals, of which one names
// no part of the source, and was no plainer.
fn save_timeslot(queue: &mut [Record], first: usize, n: usize, records: [Record; PER_TIMESLOT])
    requires { (first + per_timeslot ≤ length queue.old) × (n ≤ per_timeslot) }
    ensures { queue.new ≡ paste queue.old first records n }
{
    queue[first..first + n].copy_from_slice(&records[..n]);
}

// The record of a call that queues is stored at its place, and counted.
fn join(station: &mut Station, queue: &mut [Record], joining: Joining)
    requires { joining.place < length queue.old }
    ensures station { station.new ≡ with_queued station.old joining.queued }
    ensures queue { queue.new ≡ set queue.old joining.place joining.«record» }
{
    let Joining {
        queued,
        place,
        record,
    } = joining;
    station.queued = queued;
    queue[place] = record;
}

// A request for capacity.
pub fn ul_process_cap_req(
    station: &mut Station,
    queue: &mut [Record],
    store: &[u8],
    timeslot: u8,
    code: u8,
    address: TetraAddress,
) -> Result<Grant, Refusal>
    ensures { outcome (request_reply result) (memory station.new queue.new store.now)
        ≡ request_call (memory station.old queue.old store.now) timeslot code address.kind address.number }
{
    ask_memory(station, queue, store, true)?;
    let plan = sched_request::request_plan(
        &mut station.uplink,
        station.queued,
        timeslot,
        code,
        address,
    )?;
    join(station, queue, plan.joining);
    Ok(plan.grant)
}

// An acknowledgement of a random access is queued.
pub fn dl_enqueue_random_access_ack(
    station: &mut Station,
    queue: &mut [Record],
    store: &[u8],
    timeslot: u8,
    address: TetraAddress,
) -> Result<(), Refusal>
    ensures { outcome (queue_reply result) (memory station.new queue.new store.now)
        ≡ ack_call (memory station.old queue.old store.now) timeslot address.kind address.number }
{
    ask_memory(station, queue, store, true)?;
    let joining = sched_enqueue::ack_joins(station.queued, timeslot, address)?;
    join(station, queue, joining);
    Ok(())
}

// A record is queued with its SDU. Its kind and its sent bits do not count.
pub fn dl_enqueue_tma(
    station: &mut Station,
    queue: &mut [Record],
    store: &mut [u8],
    timeslot: u8,
    offered: Record,
    sdu: &[u8],
) -> Result<(), Refusal>
    ensures { outcome (queue_reply result) (memory station.new queue.new store.new)
        ≡ tma_call (memory station.old queue.old store.old) timeslot offered.address.kind offered.address.number offered.tag offered.header
        offered.bits sdu.now }
{
    ask_memory(station, queue, store, true)?;
    let joining = sched_enqueue::tma_joins(station.queued, store, timeslot, offered, sdu)?;
    join(station, queue, joining);
    Ok(())
}

// The block of the current slot is built, if there is one.
// Kept: row, count and first place are worked out here and in bs_sched_c, whose station is words: a struct of the three would be made and taken apart.
pub fn dl_build_block(
    station: &mut Station,
    queue: &mut [Record],
    store: &mut [u8],
    block: &mut [u8],
) -> Result<Option<Tags>, Refusal>
    ensures { build_left result (memory station.new queue.new store.new) block.new
        ≡ left_by (build_call (memory station.old queue.old store.old) block.old) }
{
    ask_memory(station, queue, store, block.len() == BLOCK_OCTETS)?;
    let time = station.uplink.time;
    let row = time.row();
    let n = station.queued[row] as usize;
    if !sched_build::builds_at(time, n) {
        return Ok(None);
    }
    let first = PER_TIMESLOT * row;
    let records = dl_queue::load_timeslot(queue, first);
    let plan = sched_build::build_timeslot(row, n, records, store, block);
    save_timeslot(queue, first, n, plan.records);
    station.queued[row] = plan.left as u8;
    Ok(Some(plan.tags))
}
