// Reads the records of steps.bin, carries out each, and prints a line for it: record, answer, value, stores.
#![tactic(auto)]

mod run;

use anyhow::{Context, Result};
use std::{fs, io};

const PATH: &str = "steps.bin";

fn main(rt: HostRuntime) -> Result<()> {
    let mut file = fs::open(&rt, PATH).context(PATH)?;
    run::run_file(&mut file, &mut io::writer(&rt))?;
    Ok(())
}
