// Drives a book call by call from a script on standard input, and prints what each call answers.
#![tactic(auto)]

use books::{AnyBook, Building};
use script::{Line, Request, read};
use std::alloc::Global;
use std::fmt::Write;
use std::io;
use tally::rows::PageRow;
use telling::{Page, Told};

mod books;
mod script;
mod telling;
mod words;

// What every row of a page holds before the call, so that rows left untouched show it.
const UNTOUCHED: PageRow = PageRow {
    day_trade: -7,
    margin: -9,
};

// Builds a book in the place of the one before; refused, that one stays.
fn replace(book: &mut Option<AnyBook>, building: Building, out: &mut String) -> anyhow::Result<()> {
    match AnyBook::build(building) {
        Ok(new) => {
            *book = Some(new);
            writeln!(out, "ok")?;
        }
        Err(unmade) => writeln!(out, "{unmade}")?,
    }
    Ok(())
}

// Makes a call of the book, and shows its page where it has one.
fn send(
    heap: Global,
    book: &mut AnyBook,
    request: Request,
    out: &mut String,
) -> anyhow::Result<()> {
    let mut page = vec![in heap; UNTOUCHED; request.page.unwrap_or(0)]?;
    let answer = book.apply(request.call, &mut page);
    writeln!(out, "{}", Told(answer))?;
    if request.page.is_some() {
        writeln!(out, "{}", Page(&page))?;
    }
    Ok(())
}

// Carries out one line of the script.
fn carry_out(
    heap: Global,
    book: &mut Option<AnyBook>,
    line: &str,
    out: &mut String,
) -> anyhow::Result<()> {
    match read(line) {
        None => writeln!(out, "?")?,
        Some(Line::Build(building)) => replace(book, building, out)?,
        Some(Line::Send(request)) => match book.as_mut() {
            None => writeln!(out, "no book")?,
            Some(book) => send(heap, book, request, out)?,
        },
    }
    Ok(())
}

// Reads the whole script, carries it out line by line, and prints once.
fn probe(rt: &HostRuntime) -> anyhow::Result<()> {
    let heap = rt.alloc();
    let script = io::read_to_string(heap, rt.stdin())?;
    let mut out = String::new(heap);
    let mut book = None;
    for line in script.as_str().lines() {
        carry_out(heap, &mut book, line, &mut out)?;
    }
    rt.print(out)?;
    Ok(())
}

fn main(rt: HostRuntime) -> anyhow::Result<()> {
    probe(&rt)
}
