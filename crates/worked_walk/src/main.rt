//! Runs the worked cases of the walk and of the field reader, and prints what they give; stdout holds what an independent implementation
//! gives. A crate beside `worked`, so that both are proved at once.
#![tactic(auto)]

mod on_fields;
mod on_walk;

use std::io;

fn main(rt: HostRuntime) -> io::Result<()> {
    on_walk::run(&rt)?;
    on_fields::run(&rt)
}
