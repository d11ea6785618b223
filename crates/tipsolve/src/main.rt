// Loses columns of a stripe and solves them. The arguments are p and up to three columns; the library reads them, loses the
// columns and solves; this prints.
#![tactic(auto)]

use anyhow::anyhow;
use std::env;
use tip_columns::Columns;
use tip_lose::request::{Request, requested};
use tip_lose::table::Table;
use tip_lose::trial::tried;

/// The arguments after the program's name.
fn words(rt: &HostRuntime) -> anyhow::Result<Vec<String>> {
    Ok(env::args(rt)?.skip(1).collect(rt.alloc())?)
}

/// Prints the stripe as it was encoded, as it is without the lost columns, and as it was solved.
fn run(rt: &HostRuntime) -> anyhow::Result<()> {
    let request = requested(&words(rt)?)?;
    let trial = tried(rt.alloc(), request)?;
    let Request { geometry, lost } = request;
    let encoded = Table {
        geometry,
        cells: &trial.encoded,
        hidden: Columns(0),
    };
    let kept = Table {
        hidden: lost,
        ..encoded
    };
    let solved = Table {
        cells: &trial.solved,
        ..encoded
    };
    println!(rt; "{request}")?;
    print!(rt; "encoded:\n{encoded}lost:\n{kept}solved:\n{solved}")?;
    if !trial.is_whole() {
        return Err(anyhow!("this is not the stripe that was encoded"));
    }
    println!(rt; "this is the stripe that was encoded")?;
    Ok(())
}

fn main(rt: HostRuntime) -> anyhow::Result<()> {
    run(&rt)
}
