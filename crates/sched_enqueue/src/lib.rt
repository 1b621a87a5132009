// Queueing an acknowledgement or a record, by the counts: the questions in order, then the place behind those queued. So it serves a
// caller that keeps station and queue elsewhere too.
#![tactic(auto)]

ghost use Rattle.std.specs.Prelude.{◌≡◌, List, ℕ, length};
ghost use Rattle.sizes.specs.Sizes.{store_octets};
ghost use Rattle.dl_record.specs.Record.{offered_record};
ghost use Rattle.sched_enqueue.specs.Plan.{ack_queued, tma_queued, joined_queued};

mod room;

use dl_record::{Kind, Record, TetraAddress};
use questions::Refusal;
pub use room::Room;
use sched_core::ask;
use sizes::{CELL_OCTETS, TIMESLOTS};
use tdma_time::Timeslot;

// The counts after a call that queues, and the record that joins the queue with its place.
#[derive(Clone, Copy)]
pub struct Joining {
    pub queued: [u8; TIMESLOTS],
    pub place: usize,
    pub record: Record,
}

// Queueing an acknowledgement, after questions 1 and 2.
#[tactic(auto, unfolding(questions::specs::Questions::ask, crate::specs::Plan::ack_queued))]
pub fn ack_joins(
    queued: [u8; TIMESLOTS],
    timeslot: u8,
    address: TetraAddress,
) -> Result<Joining, Refusal>
    ensures { (store : List ℕ) → joined_queued result queued store ≡ ack_queued queued store timeslot address.kind address.number }
{
    let timeslot = Timeslot::try_from(timeslot)?;
    ask(address.is_legal(), Refusal::Address)?;
    let room = Room::of(queued, timeslot)?;
    Ok(room.joined(Record::ack(address)))
}

// Queueing a record with its SDU, after questions 1 and 2. Its kind and its sent bits do not count.
#[tactic(auto, unfolding(questions::specs::Questions::ask, crate::specs::Plan::tma_queued))]
pub fn tma_joins(
    queued: [u8; TIMESLOTS],
    store: &mut [u8],
    timeslot: u8,
    offered: Record,
    sdu: &[u8],
) -> Result<Joining, Refusal>
    requires { length store.old ≡ store_octets }
    ensures { let r = offered_record offered.address.kind offered.address.number offered.tag offered.header offered.bits in
        joined_queued result queued store.new ≡ tma_queued queued store.old timeslot r sdu.now }
{
    let timeslot = Timeslot::try_from(timeslot)?;
    ask(offered.address.is_legal(), Refusal::Address)?;
    ask(offered.offered_header_is_legal(), Refusal::Header)?;
    ask(dl_record::sdu_is_present(offered.bits, sdu), Refusal::Sdu)?;
    let room = Room::of(queued, timeslot)?;
    let joining = room.joined(Record {
        kind: Kind::Record,
        sent: 0,
        ..offered
    });
    dl_sdu_store::write_cell(
        store,
        CELL_OCTETS * joining.place,
        sdu,
        offered.bits as usize,
    );
    Ok(joining)
}
