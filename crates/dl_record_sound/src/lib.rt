// Question 1 for a record: sound in a filled place, empty in one that is not.
#![tactic(auto)]

ghost use Rattle.std.specs.Prelude.{◌≡◌};
ghost use Rattle.dl_record.specs.Questions.{header_holds_grant_only, holds_grant_only, sound_as, sound_record, is_empty};

use dl_record::{Kind, QueuedHeader, Record};
use sizes::SDU_BITS;

// Whether every part of a header but the grant and the marker is 0 or absent.
#[tactic(auto, unfolding(dl_record::specs::Questions::header_holds_grant_only))]
fn header_holds_grant_only(h: QueuedHeader) -> bool
    ensures { result ≡ header_holds_grant_only h }
{
    (h.pos_of_grant == 0)
        & (h.encryption_mode == 0)
        & (h.random_access_flag == 0)
        & h.event_label.is_none()
        & h.power_control_element.is_none()
        & h.chan_alloc_element.is_none()
}

// Whether a record has no tag, no SDU, and such a header.
#[tactic(auto, unfolding(dl_record::specs::Questions::holds_grant_only))]
fn holds_grant_only(r: Record) -> bool
    ensures { result ≡ holds_grant_only r }
{
    (r.bits == 0) & (r.sent == 0) & r.tag.is_none() & header_holds_grant_only(r.header)
}

// What question 1 asks of a record of its kind.
fn sound_as_its_kind(r: Record) -> bool
    ensures { result ≡ sound_as r.kind r }
{
    let h = r.header;
    let fits = r.bits as usize <= SDU_BITS;
    match r.kind {
        Kind::Grant => holds_grant_only(r)
            & h.slot_granting_element.is_some()
            & mac_legal::opt_below(256, h.slot_granting_element)
            & mac_legal::opt_below(64, h.usage_marker),
        Kind::Ack => holds_grant_only(r)
            & h.slot_granting_element.is_none()
            & h.usage_marker.is_none(),
        Kind::Record | Kind::Waiting => r.header_is_legal() & fits & (r.sent == 0),
        Kind::Started => r.header_is_legal() & fits & (r.sent <= r.bits),
    }
}

// Question 1 for the record of a filled place.
#[tactic(auto, unfolding(dl_record::specs::Questions::sound_record))]
pub fn record_is_sound(r: Record) -> bool
    ensures { result ≡ sound_record r }
{
    r.address.is_legal() & sound_as_its_kind(r)
}

// Question 1 for the record of a place that is not filled.
pub fn record_is_empty(r: Record) -> bool
    ensures { result ≡ is_empty r }
{
    r == Record::EMPTY
}
