// Fill bits of a PDU: how many it wants, their writing and their removal.
#![tactic(auto)]

ghost use Rattle.std.specs.Prelude.{◌≡◌, ◌+◌, ◌*◌, ◌<◌, ◌≤◌, ◌^◌, length};
ghost use Rattle.bitbuffer.specs.Bits.{bits_of, Wrote};
ghost use Rattle.fillbits.specs.Fill.{to_octet, fill_wanted, fill_bits, fill_at_end, fill_reply};
ghost use Rattle.questions.specs.Questions.{reply};

use questions::Refusal;

// The fill bits from bit `total` to the next octet.
fn compute_required_bytealigned(total: usize) -> usize
    ensures { (result ≡ to_octet total) × (result < 8) }
{
    (8 - total % 8) % 8
}

// The fill bits that a PDU of `total` bits wants in a room of `room` bits.
pub fn compute_required(total: usize, room: usize) -> usize
    ensures { (result ≡ fill_wanted room total) × (result < 8) }
{
    let aligned = compute_required_bytealigned(total);
    aligned.min(room.saturating_sub(total))
}

// Writes `n` fill bits from `at` on, a set bit and then clear ones, and returns the position behind them.
// Kept: room and position as clauses, as in bitbuffer.
pub fn write(buf: &mut [u8], at: usize, n: usize) -> usize
    requires { (at + n ≤ 8 * length buf.old) × (at + n < 2 ^ 64) }
    ensures { (result ≡ at + n) × Wrote (bits_of buf.old) at (bits_of buf.new) result (fill_bits n) }
{
    if n == 0 {
        return at;
    }
    bitbuffer::set_bit(buf, at, true);
    bitbuffer::write_zeroes(buf, at + 1, n - 1);
    at + n
}

// The fill bits at the end of the bits from `start` up to `end`: from the last set bit on, none where no bit is set.
fn fill_bits_at_end(buf: &[u8], start: usize, end: usize) -> usize
    requires { end ≤ 8 * length buf.now }
    ensures { result ≡ fill_at_end (bits_of buf.now) start end }
{
    // Kept: a loop. Tried `(start..end).rfind(..)` with `map_or`: that its answer is the last set bit is left to be shown from the runs of a
    // range's `next_back`, of which the library has no lemma.
    for index in (start..end).rev() {
        if bitbuffer::bit_at(buf, index) {
            return end - index;
        }
    }
    0
}

// The number of fill bits at the end of the bits from `start` up to `end`, or a refusal where the buffer ends before.
pub fn get_num_fill_bits(buf: &[u8], start: usize, end: usize) -> Result<usize, Refusal>
    ensures { reply result ≡ fill_reply buf.now start end }
{
    if buf.len() < end.div_ceil(8) {
        return Err(Refusal::NoRoom);
    }
    Ok(fill_bits_at_end(buf, start, end))
}
