//! Two clearinghouses in one process: the calls of an engineer who takes the crates as a core, in
//! their order.
#![tactic(auto)]

mod pair;
mod server;
mod store;

use anyhow::Result;
use pair::{Pair, creation};

fn main(rt: HostRuntime) -> Result<()> {
    let alloc = rt.alloc();
    let mut pair = Pair::new(alloc)?;
    pair.make_root(&rt, alloc)?;
    pair.update(&rt, alloc, &creation(alloc, b"lpr")?)?;
    pair.skulk(&rt, alloc)?;
    pair.list(&rt, alloc)?;
    let mut pair = pair.restarted(alloc)?;
    println!(rt; "both houses start again from their last images")?;
    pair.skulk(&rt, alloc)?;
    let mut pair = pair.with_failing_disk(alloc)?;
    pair.update(&rt, alloc, &creation(alloc, b"fax")?)?;
    let mut pair = pair.restarted(alloc)?;
    println!(rt; "both houses start again from their last images")?;
    pair.update(&rt, alloc, &creation(alloc, b"fax")?)?;
    Ok(())
}
