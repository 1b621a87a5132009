// Runs examples of each crate and prints what they answer, a line each; the file `stdout` holds what must be printed.
#![tactic(auto)]

mod bits;
mod blocks;
mod chunks;
mod codes;
mod fill;
mod pdus;
mod time;
mod uplink_requests;

use std::io;

fn main(rt: HostRuntime) -> io::Result<()> {
    time::run(&rt)?;
    codes::run(&rt)?;
    bits::run(&rt)?;
    fill::run(&rt)?;
    uplink_requests::run(&rt)?;
    pdus::run(&rt)?;
    chunks::run(&rt)?;
    blocks::run(&rt)
}
