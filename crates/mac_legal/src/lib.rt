// Which headers are legal (document 01, question 6).
#![tactic(auto)]

ghost use Rattle.std.specs.Prelude.{◌≡◌};
ghost use Rattle.mac_pdus.specs.Legal.{opt_below, label_fits, legal_frame18, legal_chan_alloc, legal_opt_chan_alloc, within_widths, all_absent, legal_parts};
ghost use Rattle.mac_pdus.specs.Legal.{legal_fields, parts_to_write, legal_to_write, writer_takes, queued_kind, legal_queued, legal_offered};

use mac_pdus::{AddressKind, ChanAllocElement, MacResource, ResourceHeader};
use sizes::ADDRESS_NUMBERS;

// Whether an optional number is absent or below the limit.
pub fn opt_below(limit: u16, number: Option<u8>) -> bool
    ensures { result ≡ opt_below limit number }
{
    number.is_none_or(|v| (v as u16) < limit)
}

// Whether an event label is absent or of ten bits.
fn label_fits(label: Option<u16>) -> bool
    ensures { result ≡ label_fits label }
{
    label.is_none_or(|e| e < 1024)
}

// Whether the frame-18 pattern is present exactly if the pattern is 0.
fn legal_frame18(pattern: u8, frame18: Option<u8>) -> bool
    ensures { result ≡ legal_frame18 pattern frame18 }
{
    match frame18 {
        None => 0 < pattern,
        Some(f) => pattern == 0 && f < 4,
    }
}

#[tactic(auto, unfolding(mac_pdus::specs::Legal::legal_chan_alloc))]
fn legal_chan_alloc(c: ChanAllocElement) -> bool
    ensures { result ≡ legal_chan_alloc c }
{
    c.alloc_type < 4
        && c.ts_assigned < 16
        && c.ul_dl_assigned < 4
        && 0 < c.ul_dl_assigned
        && c.clch_permission < 2
        && c.cell_change_flag < 2
        && c.carrier_num < 4096
        && c.ext_carrier_num_flag == 0
        && c.mon_pattern < 4
        && legal_frame18(c.mon_pattern, c.frame18_mon_pattern)
}

// Whether a channel allocation is absent or legal.
pub fn legal_opt_chan_alloc(alloc: Option<ChanAllocElement>) -> bool
    ensures { result ≡ legal_opt_chan_alloc alloc }
{
    alloc.is_none_or(legal_chan_alloc)
}

// Whether every field but those of the channel allocation has its width.
#[tactic(auto, unfolding(mac_pdus::specs::Legal::within_widths))]
fn within_widths(h: MacResource) -> bool
    ensures { result ≡ within_widths h }
{
    h.fill_bits < 2
        && h.pos_of_grant < 2
        && h.encryption_mode < 4
        && h.random_access_flag < 2
        && h.length_ind < 64
        && h.number < ADDRESS_NUMBERS
        && label_fits(h.event_label)
        && opt_below(64, h.usage_marker)
        && opt_below(16, h.power_control_element)
        && opt_below(256, h.slot_granting_element)
}

// Whether all but the address, the label, the marker and the length are 0 or absent.
#[tactic(auto, unfolding(mac_pdus::specs::Legal::all_absent))]
fn all_absent(h: MacResource) -> bool
    ensures { result ≡ all_absent h }
{
    h.fill_bits == 0
        && h.pos_of_grant == 0
        && h.encryption_mode == 0
        && h.random_access_flag == 0
        && h.power_control_element.is_none()
        && h.slot_granting_element.is_none()
        && h.chan_alloc_element.is_none()
}

// Whether address, label, marker, encryption and elements go together.
#[tactic(auto, unfolding(mac_pdus::specs::Legal::legal_parts))]
fn legal_parts(h: MacResource) -> bool
    ensures { result ≡ legal_parts h }
{
    let addressed = h.address_kind.is_some();
    let unlabelled = h.event_label.is_none();
    let unmarked = h.usage_marker.is_none();
    let bare = all_absent(h);
    (!addressed || h.encryption_mode == 0)
        && (unmarked || (addressed && unlabelled))
        && (addressed || !unlabelled || bare)
        && (addressed || h.number == 0)
}

// Question 6, but for what differs between its callers.
#[tactic(auto, unfolding(mac_pdus::specs::Legal::legal_fields))]
fn legal_fields(h: MacResource) -> bool
    ensures { result ≡ legal_fields h }
{
    within_widths(h) && legal_opt_chan_alloc(h.chan_alloc_element) && legal_parts(h)
}

// Whether label and marker go with the kind of address in the header writer.
fn parts_to_write(h: MacResource) -> bool
    ensures { result ≡ parts_to_write h.address_kind h.event_label h.usage_marker }
{
    match h.address_kind {
        Some(AddressKind::Ussi) => h.event_label.is_none() && h.usage_marker.is_none(),
        Some(AddressKind::Smi) => h.usage_marker.is_none(),
        _ => true,
    }
}

// Question 6 for the header writer.
#[tactic(auto, unfolding(mac_pdus::specs::Legal::legal_to_write))]
pub fn legal_to_write(h: MacResource) -> bool
    ensures { result ≡ legal_to_write h }
{
    legal_fields(h) && 0 < h.length_ind && parts_to_write(h)
}

// Whether the header writer would take a header of the air.
#[tactic(auto, unfolding(mac_pdus::specs::Legal::writer_takes))]
pub fn writer_takes(r: ResourceHeader) -> bool
    ensures { result ≡ writer_takes r }
{
    legal_to_write(MacResource::from(r))
}

// Whether a queued record can have this kind of address.
fn queued_kind(kind: Option<AddressKind>) -> bool
    ensures { result ≡ queued_kind kind }
{
    matches!(
        kind,
        Some(AddressKind::Ssi | AddressKind::Gssi | AddressKind::Issi)
    )
}

// Question 6 for a queued record.
#[tactic(auto, unfolding(mac_pdus::specs::Legal::legal_queued))]
fn legal_queued(h: MacResource) -> bool
    ensures { result ≡ legal_queued h }
{
    legal_fields(h) && queued_kind(h.address_kind) && h.event_label.is_none()
}

// Question 6 for a record offered to the queue.
#[tactic(auto, unfolding(mac_pdus::specs::Legal::legal_offered))]
pub fn legal_offered(h: MacResource) -> bool
    ensures { result ≡ legal_offered h }
{
    legal_queued(h) && h.slot_granting_element.is_none()
}
