// Document 01, "Request and grant" and "Uplink entry": requests one after the other, and what the table then shows.
ghost use Rattle.tdma_time.specs.Time.{Valid};

use reservation_requirement::ReservationRequirement;
use show::{OrDash, Shown};
use std::io;
use tdma_time::{TdmaTime, Timeslot};
use uplink::{PhyBlockNum, Uplink};

// An uplink with an empty table and the counters at `marker`.
fn new(marker: u8) -> Uplink {
    Uplink {
        next_usage_marker: [marker; 4],
        ..Uplink::new(TdmaTime::new(1, 1, 1, 0))
    }
}

// A request at a time.
fn request(
    rt: &impl Print,
    u: &mut Uplink,
    now: TdmaTime,
    timeslot: u8,
    code: u8,
    number: u32,
) -> io::Result<()>
    requires { Valid now }
{
    let Ok(slot) = Timeslot::try_from(timeslot) else {
        return Ok(());
    };
    let Ok(requirement) = ReservationRequirement::try_from(code) else {
        return Ok(());
    };
    u.time = now;
    let reply = ul_grant::ul_process_cap_req(u, slot, requirement, number);
    print!(rt; "request at {} for timeslot {timeslot}", Shown(now))?;
    println!(rt; " code {code}: {}", Shown(reply.map(Shown)))
}

// The owners of the first half, the second and both, and the usage.
fn entry(rt: &impl Print, u: &Uplink, ts: TdmaTime) -> io::Result<()>
    requires { Valid ts }
{
    print!(rt; "entry of frame {}: owners", ts.f)?;
    for half in [PhyBlockNum::Block1, PhyBlockNum::Block2, PhyBlockNum::Both] {
        print!(rt; " {}", OrDash(u.owner(ts, half)))?;
    }
    println!(rt; " usage {}", Shown(u.usage(ts)))
}

// Half a slot, twice in one slot and then in the next.
fn halves(rt: &impl Print) -> io::Result<()> {
    let now = TdmaTime::new(1, 1, 1, 0);
    let later = TdmaTime::new(1, 2, 1, 0);
    let mut u = new(4);
    request(rt, &mut u, now, 1, 0, 100)?;
    request(rt, &mut u, now, 1, 0, 200)?;
    request(rt, &mut u, now, 1, 0, 300)?;
    entry(rt, &u, now)?;
    entry(rt, &u, later)?;
    request(rt, &mut u, now, 1, 1, 400)?;
    entry(rt, &u, later)
}

// More than 13 usable slots before the run, and no run.
fn refusals(rt: &impl Print) -> io::Result<()> {
    let now = TdmaTime::new(3, 1, 1, 0);
    let mut u = new(62);
    request(rt, &mut u, now, 4, 9, 1)?;
    request(rt, &mut u, now, 4, 1, 2)?;
    request(rt, &mut u, now, 4, 1, 3)?;
    request(rt, &mut u, now, 4, 4, 3)?;
    request(rt, &mut u, now, 3, 2, 3)?;
    request(rt, &mut u, now, 3, 15, 3)?;
    entry(rt, &u, TdmaTime::new(4, 1, 1, 0))
}

// Over the end of a multiframe, and over the end of the last hyperframe.
fn wraps(rt: &impl Print) -> io::Result<()> {
    let mut a = new(4);
    request(rt, &mut a, TdmaTime::new(2, 17, 5, 7), 1, 3, 77)?;
    entry(rt, &a, TdmaTime::new(1, 3, 6, 7))?;
    let mut b = new(4);
    request(rt, &mut b, TdmaTime::new(4, 17, 60, 65535), 4, 2, 78)?;
    let first = TdmaTime::new(4, 1, 1, 0);
    entry(rt, &b, first)?;
    b.time = TdmaTime::new(3, 2, 1, 0);
    b.advance();
    entry(rt, &b, first)
}

pub(crate) fn run(rt: &impl Print) -> io::Result<()> {
    halves(rt)?;
    refusals(rt)?;
    wraps(rt)
}
