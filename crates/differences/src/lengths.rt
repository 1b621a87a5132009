// Queues, stores and blocks of wrong length.
ghost use Rattle.std.specs.Prelude.{◌≤◌};

use crate::memory::{self, Memory};
use std::io;

// What each call is answered that is lent so many words of a queue and octets of a store.
fn each(rt: &impl Print, text: &str, words: usize, octets: usize) -> io::Result<()>
    requires { (words ≤ 1472) × (octets ≤ 16384) }
{
    let mut m = Memory::new();
    let before = m;
    let station = &mut m.station;
    let queue = &mut m.queue[..words];
    let store = &mut m.store[..octets];
    let request = bs_sched_c::bs_sched_request(station, queue, store, 1, 1, 0, 1).refusal;
    let ack = bs_sched_c::bs_sched_enqueue_ack(station, queue, store, 1, 0, 1);
    let record = bs_sched_c::bs_sched_enqueue(station, queue, store, 1, &[0; 23], &[0]);
    let build = bs_sched_c::bs_sched_build(station, queue, store, &mut [0; 34]).refusal;
    print!(rt; "{text} request {request}, ack {ack}, record {record}, build {build}")?;
    memory::compared(rt, m == before)
}

// A block of 33 octets, with an ack queued.
fn block_of_33(rt: &impl Print) -> io::Result<()> {
    let mut m = Memory::new();
    let _ack = bs_sched_c::bs_sched_enqueue_ack(&mut m.station, &mut m.queue, &m.store, 1, 0, 1);
    let before = m;
    let mut block = [0xff; 33];
    let build = m.build(&mut block).refusal;
    print!(rt; "R4 block of 33 octets: build {build}")?;
    memory::compared(rt, m == before && block == [0xff; 33])
}

pub(crate) fn run(rt: &impl Print) -> io::Result<()> {
    each(rt, "R4 queue of 63 records:", 1449, 16384)?;
    each(rt, "R4 store of 16383 octets:", 1472, 16383)?;
    block_of_33(rt)
}
