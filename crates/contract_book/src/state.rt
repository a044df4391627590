// A book: the kind of its contract, and its ledger.
use ledger::state::Ledger;
use tally::refusal::Refusal;

// The kind is read through its interface only; all else is the ledger's.
#[derive(Drop)]
pub struct Book<K> {
    pub(crate) kind: K,
    pub(crate) ledger: Ledger,
}

// A book that could not be built: the kind is handed back.
#[derive(Drop)]
pub struct Unbuilt<K> {
    pub kind: K,
    pub refusal: Refusal,
}
