// Document 01, "Uplink entry", "Queued record" and "Block": the entries that `slotrun` has no command for. An ack and requests are queued,
// the block is built, and owner and usage are printed before and after an advance of four slots. The file `stdout` holds what document 01
// says must come out.
#![tactic(auto)]

use dl_record::TetraAddress;
use interpreter::session::Session;
use questions::Refusal;
use sched_core::Station;
use show::{Hex, OrDash, Shown};
use std::{fmt, io};
use tdma_time::TdmaTime;
use uplink::PhyBlockNum;

// What a call that reads answers: a refusal is told from a value.
#[derive(Clone, Copy)]
struct Answered<T>(Result<T, Refusal>);

impl<T: fmt::Display> fmt::Display for Answered<T> {
    fn fmt<W: fmt::Write>(&self, f: &mut fmt::Formatter<W>) -> fmt::Result {
        match &self.0 {
            Ok(x) => write!(f, "{x}"),
            Err(r) => write!(f, "refused {}", u8::from(*r)),
        }
    }
}

// The slot at a time of hyperframe 0, multiframe 1: the owners of both halves, of the first and of the second, and the usage.
fn slot(rt: &impl Print, s: &Station, f: u8, t: u8) -> io::Result<()> {
    print!(rt; "slot {f} {t}: owner")?;
    let time = TdmaTime::new(t, f, 1, 0);
    for half in [PhyBlockNum::Both, PhyBlockNum::Block1, PhyBlockNum::Block2] {
        let owner = bs_sched::ul_get_slot_owner(s, time, half);
        print!(rt; " {}", Answered(owner.map(OrDash)))?;
    }
    let usage = bs_sched::ul_get_usage(s, time);
    println!(rt; ", usage {}", Answered(usage.map(Shown)))
}

// Frame 1, the first slot of frame 2, and a time that there is not.
fn slots(rt: &impl Print, s: &Station) -> io::Result<()> {
    for (f, t) in [(1, 1), (1, 2), (1, 3), (1, 4), (2, 1), (19, 1)] {
        slot(rt, s, f, t)?;
    }
    Ok(())
}

fn ack(rt: &impl Print, s: &mut Session, t: u8, kind: u8, number: u32) -> io::Result<()> {
    let address = TetraAddress { kind, number };
    let reply = bs_sched::dl_enqueue_random_access_ack(
        &mut s.station,
        &mut s.queue,
        &s.store,
        t,
        address,
    );
    println!(rt; "ack {}", questions::number_of(reply))
}

fn request(rt: &impl Print, s: &mut Session, t: u8, code: u8, number: u32) -> io::Result<()> {
    let address = TetraAddress { kind: 0, number };
    let reply = bs_sched::ul_process_cap_req(
        &mut s.station,
        &mut s.queue,
        &s.store,
        t,
        code,
        address,
    );
    println!(rt; "request {}", Shown(reply.map(Shown)))
}

fn build(rt: &impl Print, s: &mut Session) -> io::Result<()> {
    let mut block = [0; sizes::BLOCK_OCTETS];
    let reply = bs_sched::dl_build_block(&mut s.station, &mut s.queue, &mut s.store, &mut block);
    match reply {
        Ok(Some(_)) => println!(rt; "build 0 {}", Hex(&block)),
        Ok(None) => println!(rt; "build 0 -"),
        Err(r) => println!(rt; "build {}", u8::from(r)),
    }
}

fn main(rt: HostRuntime) -> io::Result<()> {
    let mut s = Session::start();
    ack(&rt, &mut s, 5, 0, 1)?;
    ack(&rt, &mut s, 1, 3, 1)?;
    ack(&rt, &mut s, 1, 0, 1)?;
    request(&rt, &mut s, 1, 2, 1)?;
    request(&rt, &mut s, 2, 0, 7)?;
    request(&rt, &mut s, 3, 1, 9)?;
    slots(&rt, &s.station)?;
    build(&rt, &mut s)?;
    let mut later = s.station;
    for _ in 0..4 {
        let _ = bs_sched::advance(&mut later);
    }
    slots(&rt, &later)?;
    let _ = bs_sched::advance(&mut s.station);
    // An ack behind a grant for the same number: both stand in one header. The block is what the Rust printed for the same calls.
    request(&rt, &mut s, 2, 1, 8)?;
    ack(&rt, &mut s, 2, 0, 8)?;
    build(&rt, &mut s)
}
