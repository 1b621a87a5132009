// The functions of libbs_sched_c.a, for callers in C and Rust (include/bs_sched.h): each is that of crate bs_sched_c, with its promise.
// Kept: signature and promise stand twice, since no crate can call a static library's: those of bs_sched_c are what the theorems rest on.
#![tactic(auto)]

ghost use Rattle.std.specs.Prelude.{◌≡◌};
ghost use Rattle.fillbits.specs.Fill.{fill_reply};
ghost use Rattle.bs_sched_c.specs.Buffers.{read_left, read_block_left, HeaderWritten, fill_struct};
ghost use Rattle.bs_sched_c.specs.Exports.{time_at, station_left, new_left, advance_left, owner_answer, usage_answer, left, request_left, ack_left};
ghost use Rattle.bs_sched_c.specs.Exports.{enqueue_left, build_words_left, built_left};

use bs_sched_c::buffers::{BsSchedFill, BsSchedRead, BsSchedWritten};
use bs_sched_c::reply::{BsSchedBuilt, BsSchedGrant, BsSchedOwners, BsSchedUsage};

// A new station at a time. Queue and store of a new station are all 0.
#[unsafe(no_mangle)]
pub extern "C" fn bs_sched_new(station: &mut [u32], h: u16, m: u8, f: u8, t: u8) -> u8
    ensures { station_left result station.new ≡ new_left station.old (time_at h m f t) }
{
    bs_sched_c::bs_sched_new(station, h, m, f, t)
}

// One slot on.
#[unsafe(no_mangle)]
pub extern "C" fn bs_sched_advance(station: &mut [u32]) -> u8
    ensures { station_left result station.new ≡ advance_left station.old }
{
    bs_sched_c::bs_sched_advance(station)
}

// Who holds the slot at a time: both halves, the first, the second.
#[unsafe(no_mangle)]
pub extern "C" fn bs_sched_slot_owner(station: &[u32], h: u16, m: u8, f: u8, t: u8) -> BsSchedOwners
    ensures { result ≡ owner_answer station.now (time_at h m f t) }
{
    bs_sched_c::bs_sched_slot_owner(station, h, m, f, t)
}

// How the slot at a time is used.
#[unsafe(no_mangle)]
pub extern "C" fn bs_sched_usage(station: &[u32], h: u16, m: u8, f: u8, t: u8) -> BsSchedUsage
    ensures { result ≡ usage_answer station.now (time_at h m f t) }
{
    bs_sched_c::bs_sched_usage(station, h, m, f, t)
}

// A request for capacity.
#[unsafe(no_mangle)]
pub extern "C" fn bs_sched_request(
    station: &mut [u32],
    queue: &mut [u32],
    store: &[u8],
    timeslot: u8,
    code: u8,
    kind: u8,
    number: u32,
) -> BsSchedGrant
    ensures { left result station.new queue.new store.now ≡ request_left station.old
        queue.old store.now timeslot code kind number }
{
    bs_sched_c::bs_sched_request(station, queue, store, timeslot, code, kind, number)
}

// An acknowledgement of a random access is queued.
#[unsafe(no_mangle)]
pub extern "C" fn bs_sched_enqueue_ack(
    station: &mut [u32],
    queue: &mut [u32],
    store: &[u8],
    timeslot: u8,
    kind: u8,
    number: u32,
) -> u8
    ensures { left result station.new queue.new store.now ≡ ack_left station.old
        queue.old store.now timeslot kind number }
{
    bs_sched_c::bs_sched_enqueue_ack(station, queue, store, timeslot, kind, number)
}

// A record is queued with its SDU. It is offered as 23 words, as in the queue; its kind and its sent bits do not count.
#[unsafe(no_mangle)]
pub extern "C" fn bs_sched_enqueue(
    station: &mut [u32],
    queue: &mut [u32],
    store: &mut [u8],
    timeslot: u8,
    offered: &[u32],
    sdu: &[u8],
) -> u8
    ensures { left result station.new queue.new store.new ≡ enqueue_left station.old
        queue.old store.old timeslot offered.now sdu.now }
{
    bs_sched_c::bs_sched_enqueue(station, queue, store, timeslot, offered, sdu)
}

// The block of the current slot is built.
#[unsafe(no_mangle)]
pub extern "C" fn bs_sched_build(
    station: &mut [u32],
    queue: &mut [u32],
    store: &mut [u8],
    block: &mut [u8],
) -> BsSchedBuilt
    ensures { build_words_left result station.new queue.new store.new block.new ≡ built_left station.old
        queue.old store.old block.old }
{
    bs_sched_c::bs_sched_build(station, queue, store, block)
}

// The headers of a block, each with its bit position.
#[unsafe(no_mangle)]
pub extern "C" fn bs_sched_read_block(block: &[u8], headers: &mut [u32]) -> BsSchedRead
    ensures { read_left result headers.new ≡ read_block_left block.now headers.old }
{
    bs_sched_c::buffers::bs_sched_read_block(block, headers)
}

// One MAC-RESOURCE header, from bit `at` on.
#[unsafe(no_mangle)]
pub extern "C" fn bs_sched_write_header(buf: &mut [u8], at: u64, header: &[u32]) -> BsSchedWritten
    ensures { HeaderWritten buf.old at header.now result buf.new }
{
    bs_sched_c::buffers::bs_sched_write_header(buf, at, header)
}

// The fill bits at the end of the bits from `start` up to `end`.
#[unsafe(no_mangle)]
pub extern "C" fn bs_sched_fill_bits(buf: &[u8], start: u64, end: u64) -> BsSchedFill
    ensures { result ≡ fill_struct (fill_reply buf.now start end) }
{
    bs_sched_c::buffers::bs_sched_fill_bits(buf, start, end)
}
