// Runs the single calls of vectors.bin on the engine, prints each difference from what the file expects, and at the
// end how many vectors ran and how many differ.
#![tactic(auto)]

mod compare;
mod read;
mod run;

use anyhow::{Context, Result};
use std::fs;

const PATH: &str = "vectors.bin";

fn main(rt: HostRuntime) -> Result<()> {
    let mut file = fs::open(&rt, PATH).context(PATH)?;
    let tally = run::run_file(&rt, &mut file)?;
    compare::print_tally(&rt, tally)?;
    Ok(())
}
