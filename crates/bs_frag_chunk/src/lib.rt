// A record's next PDU in the room that is left in a block: whole, the first fragment, a MAC-FRAG, a MAC-END, or none.
#![tactic(auto)]

ghost use Rattle.std.specs.Prelude.{◌≡◌, ◌-◌};
ghost use Rattle.bitbuffer.specs.Bits.{bits_of};
ghost use Rattle.bs_frag.specs.NextPdu.{begin, continue, next, sdu_at, Ready, Chunked};

use bs_frag::{Body, Chunk, ChunkOutcome};
use dl_record::Record;
use sizes::SDU_BITS;

// The first PDU of a record: MAC-RESOURCE, whole or, if it may start, the first fragment, or none.
fn get_resource_chunk(
    block: &mut [u8],
    at: usize,
    w: usize,
    store: &[u8],
    cell: usize,
    r: Record,
    may_start: bool,
) -> Chunk
    requires { Ready block.old at w store.now cell r }
    ensures { Chunked (bits_of block.old) at w (bits_of block.new) result
        (begin may_start (w - at) r (sdu_at store.now cell r.bits)) }
{
    let room = w - at;
    let from = SDU_BITS * cell;
    let bits = r.bits as usize;
    let h = bs_frag::header_size(r);
    let n = h + bits;
    if n <= room {
        let fill = fillbits::compute_required(n, room);
        let octets = (n + fill) / 8;
        let header = bs_frag::header_of(r, bs_frag::fill_flag(fill), octets as u8);
        let body = Body {
            store,
            from,
            n: bits,
            fill,
        };
        return Chunk {
            next: bs_frag::put_resource(block, at, header, body),
            outcome: ChunkOutcome::Finished,
        };
    }
    if !may_start || room < 32 || room < h {
        return Chunk {
            next: at,
            outcome: ChunkOutcome::Waiting,
        };
    }
    let sent = room - h;
    let header = bs_frag::header_of(r, 0, 63);
    let body = Body {
        store,
        from,
        n: sent,
        fill: 0,
    };
    Chunk {
        next: bs_frag::put_resource(block, at, header, body),
        outcome: ChunkOutcome::Started(sent as u16),
    }
}

// A later PDU of a record: MAC-END if its octets fit, MAC-FRAG, or none.
fn get_frag_or_end_chunk(
    block: &mut [u8],
    at: usize,
    w: usize,
    store: &[u8],
    cell: usize,
    r: Record,
) -> Chunk
    requires { Ready block.old at w store.now cell r }
    ensures { Chunked (bits_of block.old) at w (bits_of block.new) result
        (continue (w - at) r (sdu_at store.now cell r.bits)) }
{
    let room = w - at;
    let sent = r.sent as usize;
    let from = SDU_BITS * cell + sent;
    let rest = r.bits as usize - sent;
    let octets = (13 + rest).div_ceil(8);
    if octets * 8 <= room {
        let body = Body {
            store,
            from,
            n: rest,
            fill: octets * 8 - (13 + rest),
        };
        return Chunk {
            next: bs_frag::put_end(block, at, octets as u8, body),
            outcome: ChunkOutcome::Finished,
        };
    }
    if room < 16 {
        return Chunk {
            next: at,
            outcome: ChunkOutcome::Started(r.sent),
        };
    }
    let space = room - 4;
    let n = rest.min(space);
    let body = Body {
        store,
        from,
        n,
        fill: space - n,
    };
    Chunk {
        next: bs_frag::put_frag(block, at, body),
        outcome: ChunkOutcome::Started((sent + n) as u16),
    }
}

// The next PDU of a record, if there is room for one. One that is not started may start fragments or not.
// Kept: the block with its place and width, the store, the cell and the record as parameters, with one fact, `Ready`, that all three functions ask for:
// a struct of them names a lifetime, so that each clause says `x.entry.store`, and the two functions above take it apart again.
#[tactic(auto, unfolding(bs_frag::specs::NextPdu::next))]
pub fn get_next_chunk(
    block: &mut [u8],
    at: usize,
    w: usize,
    store: &[u8],
    cell: usize,
    r: Record,
    may_start: bool,
) -> Chunk
    requires { Ready block.old at w store.now cell r }
    ensures { Chunked (bits_of block.old) at w (bits_of block.new) result
        (next may_start (w - at) r (sdu_at store.now cell r.bits)) }
{
    if r.kind.is_started() {
        return get_frag_or_end_chunk(block, at, w, store, cell, r);
    }
    get_resource_chunk(block, at, w, store, cell, r, may_start)
}
