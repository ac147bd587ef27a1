//! Runs the worked cases of distance, masks, header issue and the header test, and prints what they give; stdout holds what an independent
//! implementation gives.
#![tactic(auto)]

mod on_header;
mod on_ways;

use std::io;

fn main(rt: HostRuntime) -> io::Result<()> {
    on_ways::run(&rt)?;
    on_header::run(&rt)
}

/// A space and two hexadecimal digits for each byte.
fn bytes(rt: &impl Print, bytes: &[u8]) -> io::Result<()> {
    for byte in bytes {
        print!(rt; " {byte:02x}")?;
    }
    Ok(())
}
