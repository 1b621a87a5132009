// The scheduler for callers in C and Rust: state and queue as words (crate sched_words), store, SDU and block as octets. Each
// function answers document 01's number, 0 for done; on any other number nothing of the caller's is altered.
// Kept: calls that answer a number, structs with one beside their values (reply.rt, buffers.rt), and kinds, numbers and the parts of a time that
// come in one by one: the C interface has them so.
#![tactic(auto)]

pub mod buffers;
pub mod reply;

ghost use Rattle.std.specs.Prelude.{◌≡◌, true, cond, [], ◌∷◌, ◌*◌, ◌<◌, IfOk, length, Ok, Err};
ghost use Rattle.std.proofs.lemmas.List.Edits.{sets};
ghost use Rattle.sizes.specs.Sizes.{queue_places};
ghost use Rattle.tdma_time.specs.Time.{valid};
ghost use Rattle.questions.specs.declared.Refusal.{Refusal};
ghost use Rattle.questions.specs.Questions.{question, asked_number, number_of};
ghost use Rattle.sched_core.specs.Station.{with_queued};
ghost use Rattle.sched_core.specs.Questions.{memory, memory_questions, sound_station};
ghost use Rattle.sched_core.specs.Replies.{request_reply};
ghost use Rattle.sched_words.specs.Words.{record_word_count, station_words, station_from, records_from, record_words};
ghost use Rattle.bs_sched_c.specs.Exports.{time_at, station_left, new_left, advance_left, owners_of, owner_answer, usage_of_slot, usage_answer};
ghost use Rattle.bs_sched_c.specs.Exports.{left, grant_struct, request_left, ack_left, enqueue_left, built_of, build_words_left, built_left};

use crate::reply::{BsSchedBuilt, BsSchedGrant, BsSchedOwners, BsSchedUsage};
use dl_record::TetraAddress;
use dl_send::Tags;
use questions::{Refusal, number_of};
use sched_core::{Station, ask};
use sched_enqueue::Joining;
use sched_words::station::SoundWords;
use sched_words::{
    QUEUE_WORDS, RECORD_WORDS, STATION_WORDS, queue as queue_words, station as station_words,
};
use sizes::{BLOCK_OCTETS, PER_TIMESLOT, STORE_OCTETS};
use tdma_time::{TdmaTime, Timeslot};
use uplink::{Entry, Grant};

// Question 1 for a time that is given.
fn ask_time(time: TdmaTime) -> Result<(), Refusal>
    ensures { result ≡ cond (valid time) (Ok tt) (Err Refusal.Unsound) }
{
    ask(time.is_valid(), Refusal::Unsound)
}

// A new station, in words.
fn new(station: &mut [u32], time: TdmaTime) -> Result<(), Refusal>
    ensures { station_left (number_of result) station.new ≡ new_left station.old time }
{
    ask_time(time)?;
    let station = station.as_mut_array().ok_or(Refusal::Lengths)?;
    station_words::put_station(station, &Station::new(time));
    Ok(())
}

// A new station at a time. Queue and store of a new station are all 0.
pub fn bs_sched_new(station: &mut [u32], h: u16, m: u8, f: u8, t: u8) -> u8
    ensures { station_left result station.new ≡ new_left station.old (time_at h m f t) }
{
    number_of(new(station, TdmaTime::new(t, f, m, h)))
}

// One slot on, in words.
fn advance(station: &mut [u32]) -> Result<(), Refusal>
    ensures { station_left (number_of result) station.new ≡ advance_left station.old }
{
    let station = station.as_mut_array().ok_or(Refusal::Lengths)?;
    ask(station_words::station_is_sound(station), Refusal::Unsound)?;
    station_words::advance(station);
    Ok(())
}

// One slot on.
pub fn bs_sched_advance(station: &mut [u32]) -> u8
    ensures { station_left result station.new ≡ advance_left station.old }
{
    number_of(advance(station))
}

// The entry of the slot at a time.
fn entry_at(station: &[u32], time: TdmaTime) -> Result<Entry, Refusal>
    ensures owners { owners_of result ≡ owner_answer station.now time }
    ensures usage { usage_of_slot result ≡ usage_answer station.now time }
{
    ask_time(time)?;
    let station = station.as_array().ok_or(Refusal::Lengths)?;
    let sound = SoundWords::try_from(station)?;
    Ok(sound.entry(time))
}

// Who holds the slot at a time: both halves, the first, the second.
pub fn bs_sched_slot_owner(station: &[u32], h: u16, m: u8, f: u8, t: u8) -> BsSchedOwners
    ensures { result ≡ owner_answer station.now (time_at h m f t) }
{
    BsSchedOwners::from(entry_at(station, TdmaTime::new(t, f, m, h)))
}

// How the slot at a time is used.
pub fn bs_sched_usage(station: &[u32], h: u16, m: u8, f: u8, t: u8) -> BsSchedUsage
    ensures { result ≡ usage_answer station.now (time_at h m f t) }
{
    BsSchedUsage::from(entry_at(station, TdmaTime::new(t, f, m, h)))
}

// Kept: station, queue and store are lent apart, as C has them. A type of the three is no plainer: a request and an ack only read the store,
// the other calls write it.

// Questions 1 and 2 over the words of the station, those of the queue and the store. `lent` says whether what else is lent has its length.
fn ask_memory<'a>(
    station: &'a [u32; STATION_WORDS],
    queue: &[u32],
    store: &[u8],
    lent: bool,
) -> Result<SoundWords<'a>, Refusal>
    ensures words { IfOk result (λ x. x.words.now ≡ station.now) }
    ensures number { number_of result
        ≡ asked_number (memory_questions (memory (station_from station.now) (records_from queue.now) store.now) (question lent 2 ∷ [])) }
{
    let sound = SoundWords::try_from(station)?;
    let queue = queue.as_array().ok_or(Refusal::Lengths)?;
    ask(store.len() == STORE_OCTETS, Refusal::Lengths)?;
    ask(lent, Refusal::Lengths)?;
    let queued = sound.queued();
    ask(
        queue_words::queue_is_sound(queued, queue, store),
        Refusal::Unsound,
    )?;
    Ok(sound)
}

// The record of a call that queues is stored at its place, and counted.
fn join(station: &mut [u32; STATION_WORDS], queue: &mut [u32; QUEUE_WORDS], joining: Joining)
    requires { (sound_station (station_from station.old) ≡ true) × (joining.place < queue_places) }
    ensures station { station.new ≡ station_words (with_queued (station_from station.old) joining.queued) }
    ensures queue { queue.new ≡ sets queue.old (record_word_count * joining.place) (record_words joining.«record») }
{
    station_words::put_queued(station, joining.queued);
    queue_words::put_record(queue, joining.place, joining.record);
}

// A request for capacity, in words.
fn request(
    station: &mut [u32],
    queue: &mut [u32],
    store: &[u8],
    timeslot: u8,
    code: u8,
    address: TetraAddress,
) -> Result<Grant, Refusal>
    ensures { left (grant_struct (request_reply result)) station.new queue.new store.now
        ≡ request_left station.old queue.old store.now timeslot code address.kind address.number }
{
    let station = station.as_mut_array().ok_or(Refusal::Lengths)?;
    let sound = ask_memory(station, queue, store, true)?;
    let row = Timeslot::try_from(timeslot)?.row();
    let mut uplink = sound.row_alone(row);
    let queued = sound.queued();
    let plan = sched_request::request_plan(&mut uplink, queued, timeslot, code, address)?;
    let queue = queue.as_mut_array().unwrap();
    station_words::put_row_of(station, row, &uplink, plan.joining.queued);
    queue_words::put_record(queue, plan.joining.place, plan.joining.record);
    Ok(plan.grant)
}

// A request for capacity.
pub fn bs_sched_request(
    station: &mut [u32],
    queue: &mut [u32],
    store: &[u8],
    timeslot: u8,
    code: u8,
    kind: u8,
    number: u32,
) -> BsSchedGrant
    ensures { left result station.new queue.new store.now ≡ request_left station.old
        queue.old store.now timeslot code kind number }
{
    let address = TetraAddress { kind, number };
    BsSchedGrant::from(request(station, queue, store, timeslot, code, address))
}

// An acknowledgement of a random access is queued, in words.
fn enqueue_ack(
    station: &mut [u32],
    queue: &mut [u32],
    store: &[u8],
    timeslot: u8,
    address: TetraAddress,
) -> Result<(), Refusal>
    ensures { left (number_of result) station.new queue.new store.now
        ≡ ack_left station.old queue.old store.now timeslot address.kind address.number }
{
    let station = station.as_mut_array().ok_or(Refusal::Lengths)?;
    let sound = ask_memory(station, queue, store, true)?;
    let queued = sound.queued();
    let joining = sched_enqueue::ack_joins(queued, timeslot, address)?;
    let queue = queue.as_mut_array().unwrap();
    join(station, queue, joining);
    Ok(())
}

// An acknowledgement of a random access is queued.
pub fn bs_sched_enqueue_ack(
    station: &mut [u32],
    queue: &mut [u32],
    store: &[u8],
    timeslot: u8,
    kind: u8,
    number: u32,
) -> u8
    ensures { left result station.new queue.new store.now ≡ ack_left station.old
        queue.old store.now timeslot kind number }
{
    let address = TetraAddress { kind, number };
    number_of(enqueue_ack(station, queue, store, timeslot, address))
}

// A record is queued with its SDU, in words.
fn enqueue(
    station: &mut [u32],
    queue: &mut [u32],
    store: &mut [u8],
    timeslot: u8,
    offered: &[u32],
    sdu: &[u8],
) -> Result<(), Refusal>
    ensures { left (number_of result) station.new queue.new store.new
        ≡ enqueue_left station.old queue.old store.old timeslot offered.now sdu.now }
{
    let station = station.as_mut_array().ok_or(Refusal::Lengths)?;
    let sound = ask_memory(station, queue, store, offered.len() == RECORD_WORDS)?;
    let queued = sound.queued();
    let r = queue_words::offered_from(offered.as_array().unwrap());
    let joining = sched_enqueue::tma_joins(queued, store, timeslot, r, sdu)?;
    let queue = queue.as_mut_array().unwrap();
    join(station, queue, joining);
    Ok(())
}

// A record is queued with its SDU. It is offered as 23 words, as in the queue; its kind and its sent bits do not count.
pub fn bs_sched_enqueue(
    station: &mut [u32],
    queue: &mut [u32],
    store: &mut [u8],
    timeslot: u8,
    offered: &[u32],
    sdu: &[u8],
) -> u8
    ensures { left result station.new queue.new store.new ≡ enqueue_left station.old
        queue.old store.old timeslot offered.now sdu.now }
{
    number_of(enqueue(station, queue, store, timeslot, offered, sdu))
}

// The block of the current slot is built, in words.
fn build(
    station: &mut [u32],
    queue: &mut [u32],
    store: &mut [u8],
    block: &mut [u8],
) -> Result<Option<Tags>, Refusal>
    ensures { build_words_left (built_of result) station.new queue.new store.new block.new
        ≡ built_left station.old queue.old store.old block.old }
{
    let station = station.as_mut_array().ok_or(Refusal::Lengths)?;
    let sound = ask_memory(station, queue, store, block.len() == BLOCK_OCTETS)?;
    let time = sound.time();
    let mut queued = sound.queued();
    let row = time.row();
    let n = queued[row] as usize;
    if !sched_build::builds_at(time, n) {
        return Ok(None);
    }
    let first = PER_TIMESLOT * row;
    let queue = queue.as_mut_array().unwrap();
    let records = queue_words::records_read(queue, first, n);
    let plan = sched_build::build_timeslot(row, n, records, store, block);
    queued[row] = plan.left as u8;
    station_words::put_queued(station, queued);
    queue_words::put_records(queue, first, &plan.records[..n]);
    Ok(Some(plan.tags))
}

// The block of the current slot is built.
pub fn bs_sched_build(
    station: &mut [u32],
    queue: &mut [u32],
    store: &mut [u8],
    block: &mut [u8],
) -> BsSchedBuilt
    ensures { build_words_left result station.new queue.new store.new block.new ≡ built_left station.old
        queue.old store.old block.old }
{
    BsSchedBuilt::from(build(station, queue, store, block))
}
