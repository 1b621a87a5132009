// Document 01, "Time".
ghost use Rattle.tdma_time.specs.Time.{Valid};

use show::Shown;
use std::io;
use tdma_time::{TdmaTime, Timeslot};

fn next(rt: &impl Print, x: TdmaTime) -> io::Result<()>
    requires { Valid x }
{
    println!(rt; "next of {} is {}", Shown(x), Shown(x.next()))
}

fn four_earlier(rt: &impl Print, x: TdmaTime) -> io::Result<()>
    requires { Valid x }
{
    println!(rt;
        "four slots before {} is {}",
        Shown(x),
        Shown(x.four_earlier())
    )
}

fn forward(rt: &impl Print, x: TdmaTime, ts: u8) -> io::Result<()>
    requires { Valid x }
{
    let Ok(timeslot) = Timeslot::try_from(ts) else {
        return Ok(());
    };
    println!(rt;
        "timeslot {ts} at or after {} is {}",
        Shown(x),
        Shown(x.forward_to_timeslot(timeslot))
    )
}

fn usable(rt: &impl Print, x: TdmaTime) -> io::Result<()> {
    let valid = if x.is_valid() { "valid" } else { "not valid" };
    let usable = if x.is_usable() {
        "usable"
    } else {
        "not usable"
    };
    println!(rt; "time {} is {valid}, {usable}", Shown(x))
}

pub(crate) fn run(rt: &impl Print) -> io::Result<()> {
    next(rt, TdmaTime::new(1, 1, 1, 0))?;
    next(rt, TdmaTime::new(4, 1, 1, 0))?;
    next(rt, TdmaTime::new(4, 18, 1, 0))?;
    next(rt, TdmaTime::new(4, 18, 60, 0))?;
    next(rt, TdmaTime::new(4, 18, 60, 65535))?;
    four_earlier(rt, TdmaTime::new(3, 18, 7, 9))?;
    four_earlier(rt, TdmaTime::new(3, 1, 7, 9))?;
    four_earlier(rt, TdmaTime::new(3, 1, 1, 9))?;
    four_earlier(rt, TdmaTime::new(3, 1, 1, 0))?;
    forward(rt, TdmaTime::new(1, 1, 1, 0), 1)?;
    forward(rt, TdmaTime::new(2, 1, 1, 0), 1)?;
    forward(rt, TdmaTime::new(4, 18, 60, 0), 3)?;
    forward(rt, TdmaTime::new(4, 18, 60, 65535), 3)?;
    usable(rt, TdmaTime::new(4, 17, 1, 0))?;
    usable(rt, TdmaTime::new(1, 18, 1, 0))?;
    usable(rt, TdmaTime::new(1, 1, 61, 0))?;
    usable(rt, TdmaTime::new(0, 1, 1, 0))
}
