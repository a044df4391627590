// Records, and how one is read from its line.
ghost use Rattle.std.specs.Prelude.{◌≡◌, ◌+◌, ◌^◌, ◌<◌, ◌≤◌, length};
ghost use Rattle.std.specs.Option.{option_map};
ghost use Rattle.reader.specs.Layouts.{layout};
ghost use Rattle.reader.specs.Readings.{part, residency_of, spelling, ticker_of, written};
ghost use Rattle.reader.specs.Saying.{spelt, spelt_by, Starts};
ghost use Rattle.reader.specs.declared.layout.Mark.TheVariants.{Opening};

use crate::digits::Digits;
use crate::fault::ReadFault;
use crate::identity::IdentityBytes;
use crate::layout::Mark;
use kinds::months::Ticker;
use money::currency::Residency;

// A record, with the place of its first byte in the input.
#[derive(Clone, Copy, Debug)]
pub struct Record<'a> {
    pub at: usize,
    pub content: Content<'a>,
}

// What a record says, its fields borrowed from the input.
#[derive(Clone, Copy, Debug)]
pub enum Content<'a> {
    Opening {
        ticker: Ticker,
        month: u8,
        year: Digits<'a>,
        sessions: Digits<'a>,
        opens: Digits<'a>,
        closes: Digits<'a>,
    },
    Registration {
        identity: IdentityBytes<'a>,
        residency: Residency,
    },
    Trade {
        buyer: Digits<'a>,
        seller: Digits<'a>,
        price: Digits<'a>,
        contracts: Digits<'a>,
    },
    Quotation {
        price: Digits<'a>,
        quantity: Digits<'a>,
    },
    Notice {
        seller: Digits<'a>,
        contracts: Digits<'a>,
    },
    Marking {
        price: Digits<'a>,
        rate: Digits<'a>,
    },
    Designation,
    Expiry,
}

// The ticker that an opening names.
// No TryFrom: the type is another crate's, and an error type there would say no more than None.
fn ticker(line: &[u8]) -> Option<Ticker>
    requires within { 5 ≤ length line.now }
    ensures value { result ≡ ticker_of (part 2 3 line.now) }
{
    match &line[2..5] {
        b"ICF" => Some(Ticker::Arabica),
        b"WCF" => Some(Ticker::MiniArabica),
        b"WBG" => Some(Ticker::MiniCattle),
        _ => None,
    }
}

// R stands for a resident, N for a nonresident.
// No From: the type is another crate's, and only behind the layout's test is each other letter an N.
fn residency(letter: u8) -> Residency
    ensures value { result ≡ residency_of letter }
{
    match letter {
        b'R' => Residency::Resident,
        _ => Residency::Nonresident,
    }
}

// A part of a line.
fn part(line: &[u8], from: usize, width: usize) -> &[u8]
    requires within { from + width ≤ length line.now }
    ensures value { result.now ≡ part from width line.now }
{
    &line[from..from + width]
}

// A field of digits of a line.
fn digits(line: &[u8], from: usize, width: usize) -> Digits<'_>
    requires within { from + width ≤ length line.now }
    ensures value { result.bytes.now ≡ part from width line.now }
{
    Digits {
        bytes: part(line, from, width),
    }
}

// The opening of a book, where its ticker is known and lists its month.
fn opening(line: &[u8]) -> Option<Content<'_>>
    requires within { 17 ≤ length line.now }
    ensures value { option_map spelt_by result ≡ written Opening line.now }
{
    let ticker = ticker(line)?;
    let month = ticker.listed_month(char::from(line[5]))?;
    Some(Content::Opening {
        ticker,
        month,
        year: digits(line, 6, 2),
        sessions: digits(line, 8, 3),
        opens: digits(line, 11, 3),
        closes: digits(line, 14, 3),
    })
}

// What a line that fits its mark's layout says, unless its contract is not listed. Fields are given by the place in the line and the width.
fn cut(mark: Mark, line: &[u8]) -> Option<Content<'_>>
    requires within { 2 + length (layout mark) ≤ length line.now }
    ensures value { option_map spelt_by result ≡ written mark line.now }
{
    let content = match mark {
        Mark::Opening => return opening(line),
        Mark::Registration => Content::Registration {
            identity: IdentityBytes {
                bytes: part(line, 2, 14),
            },
            residency: residency(line[16]),
        },
        Mark::Trade => Content::Trade {
            buyer: digits(line, 2, 2),
            seller: digits(line, 4, 2),
            price: digits(line, 6, 6),
            contracts: digits(line, 12, 4),
        },
        Mark::Quotation => Content::Quotation {
            price: digits(line, 2, 6),
            quantity: digits(line, 8, 4),
        },
        Mark::Notice => Content::Notice {
            seller: digits(line, 2, 2),
            contracts: digits(line, 4, 4),
        },
        Mark::Marking => Content::Marking {
            price: digits(line, 2, 6),
            rate: digits(line, 8, 7),
        },
        Mark::Designation => Content::Designation,
        Mark::Expiry => Content::Expiry,
    };
    Some(content)
}

// The record of the line at a place of the input, or the first fault that applies.
pub(crate) fn read_line<'a>(
    line: &'a [u8],
    at: usize,
    opened: bool,
) -> Result<Record<'a>, ReadFault>
    requires fits { at + length line.now < 2 ^ 64 }
    ensures value { spelt result ≡ spelling opened at line.now }
    ensures starts { Starts at result }
{
    let Some(mark) = Mark::of(line) else {
        return Err(ReadFault::UnknownMark(at));
    };
    let fit = mark.fit(line);
    if fit < mark.width() {
        return Err(ReadFault::Misfit(at + Mark::WIDTH + fit));
    }
    if mark.out_of_turn(opened) {
        return Err(ReadFault::OutOfTurn(at));
    }
    let Some(content) = cut(mark, line) else {
        return Err(ReadFault::Unlisted(at));
    };
    Ok(Record { at, content })
}
