// Runs the smallest input of the rows of docs/DIFFERENCES.md and prints what is answered, a line each under the row's name; the file
// `stdout` holds what must be printed.
#![tactic(auto)]

mod alone;
mod calls;
mod lengths;
mod memory;
mod named;
mod offers;
mod reading;
mod record;
mod starting;
mod values;

use std::io;

fn main(rt: HostRuntime) -> io::Result<()> {
    calls::run(&rt)?;
    starting::run(&rt)?;
    lengths::run(&rt)?;
    offers::run(&rt)?;
    alone::run(&rt)?;
    reading::run(&rt)?;
    values::run(&rt)
}
