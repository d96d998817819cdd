// The bench readings of document 01, run through the public calls and checked. Each line has what was asked, the
// expected answer and the answer that came out, both as text of the protocol, and whether they agree.
#![tactic(auto)]

mod poses;
mod report;
mod sizes;
mod store;
mod stores;

use std::io;

fn main(rt: HostRuntime) -> io::Result<()> {
    poses::roots(&rt)?;
    poses::tolerance(&rt)?;
    stores::tolerance(&rt)?;
    stores::ages(&rt)?;
    poses::interpolation(&rt)?;
    stores::interpolation(&rt)?;
    stores::common_times(&rt)?;
    stores::refusals(&rt)?;
    stores::chain(&rt)?;
    sizes::sizes(&rt)
}
