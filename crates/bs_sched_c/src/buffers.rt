// The block reader, the header writer and fill removal, on buffers of the caller's own. Headers are words (crate header_words).
// Kept: structs with the number of a refusal beside a value, and two of one shape: the C interface has them so.
ghost use Rattle.std.specs.Prelude.{◌≡◌};
ghost use Rattle.fillbits.specs.Fill.{fill_reply};
ghost use Rattle.questions.specs.Questions.{reply};
ghost use Rattle.bs_sched_c.specs.Buffers.{read_of, read_left, read_block_left, written_struct, HeaderWritten, fill_struct};

use questions::{Refusal, number_of};

// The block reader's answer.
#[repr(C)]
#[derive(Clone, Copy)]
pub struct BsSchedRead {
    pub refusal: u8,
    pub count: u8,
}

// The header writer's answer: the position behind the header.
#[repr(C)]
#[derive(Clone, Copy)]
pub struct BsSchedWritten {
    pub refusal: u8,
    pub end: u64,
}

// Fill removal's answer.
#[repr(C)]
#[derive(Clone, Copy)]
pub struct BsSchedFill {
    pub refusal: u8,
    pub bits: u64,
}

impl From<Result<u8, Refusal>> for BsSchedRead {
    ghost from_gives = { λ count x. x ≡ read_of count };

    fn from(count: Result<u8, Refusal>) -> BsSchedRead {
        BsSchedRead {
            refusal: number_of(count),
            count: count.unwrap_or(0),
        }
    }
}

impl From<Result<usize, Refusal>> for BsSchedWritten {
    ghost from_gives = { λ end x. x ≡ written_struct (reply end) };

    fn from(end: Result<usize, Refusal>) -> BsSchedWritten {
        BsSchedWritten {
            refusal: number_of(end),
            end: end.unwrap_or(0) as u64,
        }
    }
}

impl From<Result<usize, Refusal>> for BsSchedFill {
    ghost from_gives = { λ bits x. x ≡ fill_struct (reply bits) };

    fn from(bits: Result<usize, Refusal>) -> BsSchedFill {
        BsSchedFill {
            refusal: number_of(bits),
            bits: bits.unwrap_or(0) as u64,
        }
    }
}

// How many headers are listed.
fn read_block(block: &[u8], headers: &mut [u32]) -> Result<u8, Refusal>
    ensures { read_left (read_of result) headers.new ≡ read_block_left block.now headers.old }
{
    let headers = headers.as_mut_array().ok_or(Refusal::Lengths)?;
    // Kept: a match, since `?` moves the whole list once more.
    match mac_reader::read_block(block) {
        Ok(read) => {
            header_words::put_headers(headers, read.as_slice());
            Ok(read.len() as u8)
        }
        Err(refusal) => Err(refusal),
    }
}

// The headers of a block, each with its bit position.
pub fn bs_sched_read_block(block: &[u8], headers: &mut [u32]) -> BsSchedRead
    ensures { read_left result headers.new ≡ read_block_left block.now headers.old }
{
    BsSchedRead::from(read_block(block, headers))
}

// One MAC-RESOURCE header, from bit `at` on.
pub fn bs_sched_write_header(buf: &mut [u8], at: u64, header: &[u32]) -> BsSchedWritten
    ensures { HeaderWritten buf.old at header.now result buf.new }
{
    BsSchedWritten::from(header_words::write_words(buf, at as usize, header))
}

// The fill bits at the end of the bits from `start` up to `end`.
pub fn bs_sched_fill_bits(buf: &[u8], start: u64, end: u64) -> BsSchedFill
    ensures { result ≡ fill_struct (fill_reply buf.now start end) }
{
    let bits = fillbits::get_num_fill_bits(buf, start as usize, end as usize);
    BsSchedFill::from(bits)
}
