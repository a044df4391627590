// Settles a file of records: reads it whole, answers each record, and writes the report at once.
#![tactic(auto)]

ghost use Rattle.std.specs.Prelude.{◌≡◌, ◌+◌, ◌*◌, ◌^◌, ◌≤◌, MatchOption};

use anyhow::{Context, anyhow};
use desk::whole::room;
use reader::whole::count_records;
use run::settle;
use std::io::{Read, Write};
use std::{env, fs};

mod answers;
mod printed;
mod quotes;
mod run;

// The closing line is 77 bytes of words with a final price, two counts of at most 20 digits and a price of 6.
const CLOSING_ROOM: usize = 160;

// How many bytes the report of so many records can take: each record prints one line or none, and a closing line stands behind them.
fn report_room(records: usize) -> Option<usize>
    ensures { MatchOption result (2 ^ 64 ≤ 64 * records + 160) (λ n. n ≡ 64 * records + 160) }
{
    room(records, CLOSING_ROOM)
}

// The bytes of a file, or of standard input where none is named.
// It stands in both programs, since a library's function owes a contract and none can say what a file gives.
fn read_input(rt: &HostRuntime, path: Option<&str>) -> anyhow::Result<Vec<u8>> {
    let Some(path) = path else {
        let mut input = Vec::new(rt.alloc());
        rt.stdin().read_to_end(&mut input)?;
        return Ok(input);
    };
    fs::read(rt, path).map_err(|e| anyhow!("cannot read {path}: {e}"))
}

// Reads, settles and writes what the first argument names. Nothing is written unless the whole report is there.
fn report(rt: &HostRuntime) -> anyhow::Result<()> {
    let path = env::args(rt)?.nth(1);
    let input = read_input(rt, path.as_deref())?;
    let room = report_room(count_records(&input)).context("too many records")?;
    let mut out = vec![in rt.alloc(); 0u8; room]?;
    let end = settle(&input, &mut out).context("the report outgrew its room")?;
    out.truncate(end);
    rt.stdout().write_all(&out)?;
    Ok(())
}

fn main(rt: HostRuntime) -> anyhow::Result<()> {
    report(&rt)
}
