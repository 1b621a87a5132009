// A new station with its queue and its store, lent to the calls, and what a call leaves of them.
use bs_sched_c::reply::BsSchedBuilt;
use std::io;

// The words of a station and of its queue, and the octets of its store.
// Kept: beside the interpreter's `Session`, since the calls of C take words, and two memories are held against one another as they stand.
#[derive(Clone, Copy, PartialEq)]
pub(crate) struct Memory {
    pub(crate) station: [u32; 228],
    pub(crate) queue: [u32; 1472],
    pub(crate) store: [u8; 16384],
}

impl Memory {
    // A new station at 0/1/1/1, with nothing queued.
    pub(crate) fn new() -> Self {
        let mut station = [0; 228];
        let _new = bs_sched_c::bs_sched_new(&mut station, 0, 1, 1, 1);
        Memory {
            station,
            queue: [0; 1472],
            store: [0; 16384],
        }
    }

    // Offers a record to timeslot 1.
    pub(crate) fn enqueue(&mut self, record: &[u32], sdu: &[u8]) -> u8 {
        bs_sched_c::bs_sched_enqueue(
            &mut self.station,
            &mut self.queue,
            &mut self.store,
            1,
            record,
            sdu,
        )
    }

    pub(crate) fn build(&mut self, block: &mut [u8]) -> BsSchedBuilt {
        bs_sched_c::bs_sched_build(&mut self.station, &mut self.queue, &mut self.store, block)
    }
}

// The end of a line: whether a call left what it was lent as it was.
pub(crate) fn compared(rt: &impl Print, same: bool) -> io::Result<()> {
    println!(rt; ", {}", if same { "nothing altered" } else { "altered" })
}
