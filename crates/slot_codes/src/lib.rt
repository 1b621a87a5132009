// The codes of reservation requirements and granted capacities as plain numbers (EN 300 392-2, clauses 21.5.4 and 21.5.6).
// Kept: numbers, since the two kinds share their table of slots; `ReservationRequirement` and `BasicSlotgrantCapAlloc`, above, are the kinds.
#![tactic(auto)]

ghost use Rattle.std.specs.Prelude.{◌≡◌};
ghost use Rattle.slot_codes.specs.Codes.{slots_of, slots_wanted, slots_granted, capacity_for, code_for};

// A number that is no code.
#[derive(Clone, Copy, Debug, PartialEq, Eq)]
pub struct UnknownCode(pub u8);

// The slots of codes 0 to 14, which requirements and capacities share.
const SLOTS: [usize; 15] = [1, 1, 2, 3, 4, 5, 6, 8, 10, 13, 17, 24, 34, 51, 68];

// The slots of a code; `past` are those of the codes past the table.
fn slots_of(code: u8, past: usize) -> usize
    ensures { result ≡ slots_of past code }
{
    SLOTS.get(code as usize).copied().unwrap_or(past)
}

// The slots that a requirement code asks for; half a slot asks for one.
pub fn slots_wanted(code: u8) -> usize
    ensures { result ≡ slots_wanted code }
{
    slots_of(code, 68)
}

// The slots that a capacity code grants; half a slot counts as one.
pub fn slots_granted(capacity: u8) -> usize
    ensures { result ≡ slots_granted capacity }
{
    slots_of(capacity, 1)
}

// The capacity code that answers a requirement code; `second` says which half is granted where half a slot is asked for.
pub fn capacity_for(code: u8, second: bool) -> u8
    ensures { result ≡ capacity_for code second }
{
    if code == 0 && second {
        return 15;
    }
    code.min(14)
}

// The requirement code of a need of `req` slots: that of the least count that holds them. 0 stands for half a slot.
pub fn code_for(req: usize) -> u8
    ensures { result ≡ code_for req }
{
    if req == 0 {
        return 0;
    }
    1 + SLOTS[1..].partition_point(|&slots| slots < req) as u8
}
