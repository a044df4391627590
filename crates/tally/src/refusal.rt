// Why a book turns a call down.
ghost use Rattle.std.specs.Prelude.{◌≡◌};
ghost use Rattle.tally.specs.Refusals.{refusal_number};
ghost use Rattle.tally.specs.declared.refusal.Refusal.TheVariants.{Unquoted};

use kinds::quotation::KindFault;

// The first question that was not met.
#[derive(Clone, Copy, Debug, PartialEq, Eq)]
pub enum Refusal {
    // The sessions or the notice window cannot be had.
    Unbuildable,
    // The last session is over.
    Closed,
    AccountsFull,
    // An identity byte is neither a capital letter nor a digit.
    Unidentifiable,
    // An account has this identity already.
    Registered,
    // An account is not registered, or buys from itself.
    Stranger,
    // The price is out of range, or a trade's no multiple of the tick.
    Unpriced,
    // The contracts, or the quantity, are not 1 to 3,000.
    Uncounted,
    SheetFull,
    // A side would have more contracts than it may.
    OverLimit,
    // The buyer would no longer be short what it has under notice.
    Uncovered,
    // In the last session before delivery: a new short, or a side that both buys and sells.
    LastSession,
    LotsFull,
    // The kind does not take the quotation.
    Unquoted(KindFault),
    // The session is outside the notice window.
    OutsideWindow,
    // The seller is not short that much beyond what it has under notice.
    NotShort,
    NoticesFull,
    NoneDue,
    // A notice has to be designated first.
    NoticeDue,
    // The rate is out of range.
    Unrated,
    // The page has fewer rows than there are accounts.
    PageShort,
    // The kind delivers, the session is not the one after the last, or the book has expired.
    NotExpiring,
    NoFinalPrice,
}

impl Refusal {
    // The number that the refusal is shown by. A match, since no cast reads an enum of which a variant has a field.
    pub fn number(self) -> u8
        ensures value { result ≡ refusal_number self }
    {
        match self {
            Refusal::Unbuildable => 1,
            Refusal::Closed => 2,
            Refusal::AccountsFull => 3,
            Refusal::Unidentifiable => 4,
            Refusal::Registered => 5,
            Refusal::Stranger => 6,
            Refusal::Unpriced => 7,
            Refusal::Uncounted => 8,
            Refusal::SheetFull => 9,
            Refusal::OverLimit => 10,
            Refusal::Uncovered => 11,
            Refusal::LastSession => 12,
            Refusal::LotsFull => 13,
            Refusal::Unquoted(fault) => fault.number(),
            Refusal::OutsideWindow => 15,
            Refusal::NotShort => 16,
            Refusal::NoticesFull => 17,
            Refusal::NoneDue => 18,
            Refusal::NoticeDue => 19,
            Refusal::Unrated => 20,
            Refusal::PageShort => 21,
            Refusal::NotExpiring => 22,
            Refusal::NoFinalPrice => 23,
        }
    }
}

impl From<KindFault> for Refusal {
    ghost from_gives = { λ fault r. r ≡ Unquoted fault };

    fn from(fault: KindFault) -> Refusal {
        Refusal::Unquoted(fault)
    }
}
