// The call that a record makes of a book.
ghost use Rattle.std.specs.Prelude.{◌≡◌};
ghost use Rattle.reader.specs.Saying.{said};
ghost use Rattle.desk.specs.Calls.{call_of, identified};

use kinds::quotation::Quotation;
use reader::fault::ReadFault;
use reader::identity::IdentityBytes;
use reader::record::{Content, Record};
use tally::call::{Call, Marking, Notification, Registration};
use tally::rows::{Identity, Trade};

// The three parts of an identity's bytes.
fn identity(identity: IdentityBytes) -> Identity
    ensures { result ≡ identified identity.entry.bytes.now }
{
    let bytes = identity.bytes;
    Identity {
        customer: <[u8; 8]>::try_from(&bytes[..8]).unwrap(),
        house: <[u8; 3]>::try_from(&bytes[8..11]).unwrap(),
        member: <[u8; 3]>::try_from(&bytes[11..]).unwrap(),
    }
}

// The call that a line makes, if it was read and makes one.
// No `From` of a record can stand here, since neither type is this crate's.
pub fn call(came: Result<Record, ReadFault>) -> Option<Call>
    ensures { result ≡ call_of (said came.entry) }
{
    let call = match came.ok()?.content {
        Content::Opening { .. } => return None,
        Content::Registration {
            identity: bytes,
            residency,
        } => Call::Register(Registration {
            identity: identity(bytes),
            residency,
        }),
        Content::Trade {
            buyer,
            seller,
            price,
            contracts,
        } => Call::Trade(Trade {
            buyer: buyer.value() as usize,
            seller: seller.value() as usize,
            price: u64::from(price.value()),
            contracts: u64::from(contracts.value()),
        }),
        Content::Quotation { price, quantity } => Call::Quote(Quotation {
            price: u64::from(price.value()),
            quantity: u64::from(quantity.value()),
        }),
        Content::Notice { seller, contracts } => Call::Notify(Notification {
            seller: seller.value() as usize,
            contracts: u64::from(contracts.value()),
        }),
        Content::Marking { price, rate } => Call::Mark(Marking {
            price: u64::from(price.value()),
            rate: u64::from(rate.value()),
        }),
        Content::Designation => Call::Designate,
        Content::Expiry => Call::Expire,
    };
    Some(call)
}
