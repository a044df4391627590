// Registering an account: its questions, and its row.
ghost use Rattle.std.specs.Prelude.{◌≡◌, ◌+◌, ◌≤◌, Bool, false, length, is_ok, None, nat_le, nat_lt};
ghost use Rattle.tally.specs.Events.{registering};
ghost use Rattle.tally.specs.Questions.{verdict, is_name_byte, all_name_bytes, is_name, is_new};
ghost use Rattle.tally.specs.Runs.{after, reply};
ghost use Rattle.tally.specs.Steps.{register};
ghost use Rattle.ledger.specs.Ledgers.{view, terms_of};
ghost use Rattle.ledger.specs.Told.{judged, told};
ghost use Rattle.tally.specs.declared.call.Reply.TheVariants.{Numbered};

use crate::state::{ACCOUNTS, Ledger};
use tally::call::Registration;
use tally::refusal::Refusal;
use tally::rows::{Account, Identity};

// A capital letter or a digit.
fn is_name_byte(b: u8) -> bool
    ensures { result ≡ is_name_byte b }
{
    b.is_ascii_uppercase() || b.is_ascii_digit()
}

// Whether all bytes are capital letters or digits.
fn are_name_bytes(bytes: &[u8]) -> bool
    ensures { result ≡ all_name_bytes bytes.now }
{
    bytes.iter().all(|b| is_name_byte(*b))
}

// Whether an identity is made of capital letters and digits.
fn is_named(identity: &Identity) -> bool
    ensures { result ≡ is_name identity.now }
{
    are_name_bytes(&identity.customer)
        && are_name_bytes(&identity.house)
        && are_name_bytes(&identity.member)
}

// Whether no account has the identity.
fn is_new(identity: &Identity, accounts: &[Account]) -> bool
    ensures { result ≡ is_new identity.now accounts.now }
{
    accounts.iter().all(|account| *identity != account.identity)
}

impl Ledger {
    pub(crate) fn is_open(&self) -> bool
        ensures { result ≡ nat_le (view self.now).session (terms_of self.now).last }
    {
        u64::from(self.session) <= self.terms.last
    }

    fn has_account_room(&self) -> bool
        ensures { result ≡ nat_lt (length (view self.now).accounts) 64 }
    {
        self.accounts.len() < ACCOUNTS
    }

    fn has_new_identity(&self, identity: &Identity) -> bool
        ensures { result ≡ is_new identity.now (view self.now).accounts }
    {
        is_new(identity, self.accounts.as_slice())
    }

    // Why an account is not registered, if it is not.
    #[tactic(auto, unfolding(tally::specs::Questions::questions, tally::specs::Questions::first_unmet))]
    fn register_verdict(&self, registration: Registration) -> Result<(), Refusal>
        ensures { result ≡ judged (verdict (terms_of self.now) (view self.now) (registering registration)) }
    {
        if !self.is_open() {
            return Err(Refusal::Closed);
        }
        if !self.has_account_room() {
            return Err(Refusal::AccountsFull);
        }
        if !is_named(&registration.identity) {
            return Err(Refusal::Unidentifiable);
        }
        if !self.has_new_identity(&registration.identity) {
            return Err(Refusal::Registered);
        }
        Ok(())
    }

    // Writes the row of an account that meets its questions.
    fn enroll(&mut self, registration: Registration)
        requires { verdict (terms_of self.old) (view self.old) (registering registration) ≡ None }
        ensures view { view self.new ≡ register (view self.old) registration }
        ensures terms { self.new.terms ≡ self.old.terms }
    {
        self.accounts.push(Account {
            identity: registration.identity,
            residency: registration.residency,
            ..Account::default()
        });
    }

    // Registers an account, and answers its number.
    #[tactic(auto, unfolding(tally::specs::Steps::done))]
    pub fn register(&mut self, registration: Registration) -> Result<usize, Refusal>
        ensures answers { told Numbered result ≡ reply (terms_of self.old) (view self.old) (registering registration) }
        ensures after { view self.new ≡ after (terms_of self.old) (view self.old) (registering registration) }
        ensures terms { self.new.terms ≡ self.old.terms }
        ensures same { is_ok result ≡ false → self.new ≡ self.old }
    {
        self.register_verdict(registration)?;
        self.enroll(registration);
        Ok(self.accounts.len())
    }
}
