//! Two kinds of rows in lines of one text: contracts of an account, in lots or under notice, and requests, which have no owner.
ghost use Rattle.std.specs.Prelude.{◌≡◌, [], ◌∷◌, MatchResult};
ghost use Rattle.aged.specs.Examples.{batch, batch_counting, request_counting, lots_after, Worked};
ghost use Rattle.std.proofs.Common.{refl};

use super::{Line, Owned, Refusal, Row};

/// Contracts of one account since a session.
#[derive(Clone, Copy, Default)]
pub struct Batch {
    pub account: usize,
    pub session: u16,
    pub contracts: u32,
}

/// Contracts that an account bought in a session.
pub type Lot = Batch;

/// Contracts that an account gave notice of in a session.
pub type Notice = Batch;

impl Row for Batch {
    ghost counting = { batch_counting };

    fn count(&self) -> u32 {
        self.contracts
    }

    fn with_count(self, n: u32) -> Batch {
        Batch {
            contracts: n,
            ..self
        }
    }
}

impl Owned for Batch {
    ghost whose = { λ x. x.account };

    ghost same = { λ x n. refl };

    fn owner(&self) -> usize {
        self.account
    }
}

/// Contracts asked for in a session, whoever asked.
#[derive(Clone, Copy, Default)]
pub struct Request {
    pub session: u16,
    pub contracts: u32,
}

impl Row for Request {
    ghost counting = { request_counting };

    fn count(&self) -> u32 {
        self.contracts
    }

    fn with_count(self, n: u32) -> Request {
        Request {
            contracts: n,
            ..self
        }
    }
}

/// The worked line: three lots, less 6 of account 1.
pub fn worked_lots() -> Result<Line<Lot, 3>, Refusal>
    ensures worked { Worked }
    ensures cases { MatchResult result (λ lots. lots ≡ lots_after) (λ _. ⊥) }
{
    let mut lots = Line::new();
    lots.append(Lot {
        account: 1,
        session: 1,
        contracts: 5,
    })?;
    lots.append(Lot {
        account: 2,
        session: 1,
        contracts: 4,
    })?;
    lots.append(Lot {
        account: 1,
        session: 2,
        contracts: 2,
    })?;
    lots.take_of(1, 6);
    Ok(lots)
}

/// Notices are met oldest first, whoever sent them: what stands, and how much was met.
pub fn worked_notices() -> Result<(Line<Notice, 2>, u32), Refusal>
    ensures { MatchResult result (λ v. (v.0 ≡ batch 4 1 2 ∷ []) × (v.1 ≡ 3)) (λ _. ⊥) }
{
    let mut notices = Line::new();
    notices.append(Notice {
        account: 3,
        session: 1,
        contracts: 2,
    })?;
    notices.append(Notice {
        account: 4,
        session: 1,
        contracts: 3,
    })?;
    let met = notices.take_oldest(3);
    Ok((notices, met))
}

/// More is asked for than was requested, so that all is served and the line is empty.
pub fn worked_requests() -> Result<(Line<Request, 2>, u32), Refusal>
    ensures { MatchResult result (λ v. (v.0 ≡ []) × (v.1 ≡ 5)) (λ _. ⊥) }
{
    let mut requests = Line::new();
    requests.append(Request {
        session: 1,
        contracts: 2,
    })?;
    requests.append(Request {
        session: 2,
        contracts: 3,
    })?;
    let served = requests.take_oldest(9);
    Ok((requests, served))
}
