// Settles a file of records: reads it whole, runs its book, and writes the report at once.
#![tactic(auto)]

use anyhow::anyhow;
use desk::whole::report;
use std::io::{Read, Write};
use std::{env, fs};

const HELP: &str = "Usage: settle [FILE]

Settles a book of coffee or cattle futures: reads records from FILE, or from
standard input where none is named, and prints what each account is paid.

  S session account day-trade margin     an account on a page
  T session reais dollars remainder lines    what the page comes to
  D buyer seller contracts price         a designation
  R record layer number place            a refused record

  --help       print this and end
  --version    print the version and end
";

const VERSION: &str = "settle 1.0.0";

// The bytes of a file, or of standard input where none is named.
// It stands in both programs, since a library's function owes a contract and none can say what a file gives.
fn read_input(rt: &HostRuntime, path: Option<&str>) -> anyhow::Result<Vec<u8>> {
    let Some(path) = path else {
        let mut input = Vec::new(rt.alloc());
        rt.stdin().read_to_end(&mut input)?;
        return Ok(input);
    };
    fs::read(rt, path).map_err(|e| anyhow!("cannot read {path}: {e}"))
}

// Settles an input and writes the report. Nothing is written unless all of it is there.
fn settle(rt: &HostRuntime, path: Option<&str>) -> anyhow::Result<()> {
    let text = report(rt.alloc(), &read_input(rt, path)?)?;
    rt.stdout().write_all(&text)?;
    Ok(())
}

// Does what the first argument says.
fn run(rt: &HostRuntime) -> anyhow::Result<()> {
    let word = env::args(rt)?.nth(1);
    match word.as_deref() {
        Some("--help") => print!(rt; "{HELP}")?,
        Some("--version") => println!(rt; "{VERSION}")?,
        path => settle(rt, path)?,
    }
    Ok(())
}

fn main(rt: HostRuntime) -> anyhow::Result<()> {
    run(&rt)
}
