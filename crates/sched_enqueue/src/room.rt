// Room for a record behind those that are queued for a timeslot.

ghost use Rattle.std.specs.Prelude.{◌≡◌, ◌-◌, ◌<◌, true, false, get_or, IfOk, IfErr};
ghost use Rattle.sizes.specs.Sizes.{per_timeslot, queue_places};
ghost use Rattle.questions.specs.declared.Refusal.{Refusal};
ghost use Rattle.dl_queue.specs.Queue.{next_place};
ghost use Rattle.sched_core.specs.Questions.{queued_for, has_room};
ghost use Rattle.sched_core.specs.Invariant.{one_more};

use crate::Joining;
use dl_record::Record;
use questions::Refusal;
use sizes::{PER_TIMESLOT, TIMESLOTS};
use tdma_time::Timeslot;

// The counts, and a timeslot that has room for one more.
#[derive(Clone, Copy)]
pub struct Room {
    pub queued: [u8; TIMESLOTS],
    pub timeslot: Timeslot,
    ghost room: { get_or queued (timeslot.number - 1) 0 < per_timeslot },
}

impl Room {
    ghost use Rattle.sched_enqueue.specs.Plan.{joined_joining};

    // Question 8.
    pub fn of(queued: [u8; TIMESLOTS], timeslot: Timeslot) -> Result<Room, Refusal>
        ensures ok { IfOk result (λ r. (r.queued ≡ queued) × (r.timeslot ≡ timeslot) × (has_room (queued_for queued timeslot.number) ≡ true)) }
        ensures err { IfErr result (λ e. (e ≡ Refusal.QueueFull) × (has_room (queued_for queued timeslot.number) ≡ false)) }
    {
        if (queued[timeslot.row()] as usize) < PER_TIMESLOT {
            Ok(Room { queued, timeslot })
        } else {
            Err(Refusal::QueueFull)
        }
    }

    // The place behind those queued.
    fn place(self) -> usize
        ensures { (result ≡ next_place self.queued (self.timeslot.number - 1)) × (result < queue_places) }
    {
        let row = self.timeslot.row();
        PER_TIMESLOT * row + self.queued[row] as usize
    }

    // The counts with one more.
    fn one_more(self) -> [u8; TIMESLOTS]
        ensures { result ≡ one_more self.queued self.timeslot.number }
    {
        let mut counts = self.queued;
        counts[self.timeslot.row()] += 1;
        counts
    }

    // A record joins the queue.
    pub fn joined(self, record: Record) -> Joining
        ensures value { result ≡ joined_joining self.queued self.timeslot.number «record» }
        ensures place { result.place < queue_places }
    {
        Joining {
            queued: self.one_more(),
            place: self.place(),
            record,
        }
    }
}
