// Document 01's sending by lengths alone: no bit of an SDU is looked at.
ghost use Rattle.std.specs.Prelude.{◌≡◌, true, List, ℕ, ◌-◌, ◌<◌, ◌≤◌, get_or, length};
ghost use Rattle.sizes.specs.Sizes.{per_timeslot};
ghost use Rattle.bs_frag.specs.NextPdu.{begin, continue, next};
ghost use Rattle.dl_send.specs.Arrays.{listed, records_at};
ghost use Rattle.dl_send.specs.Document01.{arises};
ghost use Rattle.as_document_01.specs.Lengths.{LengthsOf};

use dl_record::Record;
use sizes::PER_TIMESLOT;

// What a turn comes to: it waits, it writes a PDU with so much room behind it, or it starts fragments, behind which there is none.
#[derive(Clone, Copy)]
pub(crate) enum TurnLengths {
    Waits,
    Writes(usize),
    Starts,
}

// A record's first PDU: whole, the first fragment, or none.
fn first_lengths(r: Record, room: usize) -> TurnLengths
    ensures { (sdu : List ℕ) → LengthsOf room (begin true room r sdu) result }
{
    let h = bs_frag::header_size(r);
    let n = h + r.bits as usize;
    if n <= room {
        let fill = fillbits::compute_required(n, room);
        return TurnLengths::Writes(room - (n + fill));
    }
    if room < 32 || room < h {
        return TurnLengths::Waits;
    }
    TurnLengths::Starts
}

// A later PDU: MAC-END, MAC-FRAG, or none.
fn later_lengths(r: Record, room: usize) -> TurnLengths
    ensures { (sdu : List ℕ) → LengthsOf room (continue room r sdu) result }
{
    let left = r.bits.saturating_sub(r.sent) as usize;
    let size = (13 + left).div_ceil(8) * 8;
    if size <= room {
        return TurnLengths::Writes(room - size);
    }
    if room < 16 {
        return TurnLengths::Waits;
    }
    TurnLengths::Writes(0)
}

// A record's turn, as document 01 has it: any record may start fragments.
fn turn_lengths(r: Record, room: usize) -> TurnLengths
    ensures { (sdu : List ℕ) → LengthsOf room (next true room r sdu) result }
{
    if r.kind.is_started() {
        later_lengths(r, room)
    } else {
        first_lengths(r, room)
    }
}

// Does document 01's sending of the records at the places of `order`, in a block of `w` bits, start fragments behind a record that wrote nothing?
pub(crate) fn starts_behind(records: &[Record; PER_TIMESLOT], order: &[u8], w: usize) -> bool
    requires { (length order.now ≤ per_timeslot) × ((i : ℕ) → i < length order.now → get_or order.now i 0 < per_timeslot) }
    ensures { (sdu : ℕ → ℕ → List ℕ) (from : List ℕ) → result ≡ arises sdu w (listed (length order.now) (records_at order.now records.now) from) }
{
    let mut room = w;
    let mut may = true;
    for &place in order {
        match turn_lengths(records[place as usize], room) {
            TurnLengths::Waits => may = false,
            TurnLengths::Writes(left) => room = left,
            TurnLengths::Starts if !may => return true,
            TurnLengths::Starts => room = 0,
        }
    }
    false
}
