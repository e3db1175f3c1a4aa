// Refusal 7: the stores, by their lengths in bytes.
ghost use Rattle.std.specs.Prelude.{◌≡◌, ◌&&◌, ◌<◌};
ghost use Rattle.buffer.specs.Rows as Rows;
ghost use Rattle.record.specs.Widths.{pick_width};
ghost use Rattle.rules.specs.Check.{check_stores};
ghost use Rattle.rules.specs.Log.{log_suffices, check_log_stores};

use crate::lent::Lent;
use record::{cell, log, pick, token};
use rules::answer::{Fault, Refusal};

// Whether all four hold whole records, where a record of a token has `token` bytes and one of a cell `cell`: those of a range run have more.
pub fn all_whole(
    token: usize,
    cell: usize,
    inputs: usize,
    picks: usize,
    ledger: usize,
    cells: usize,
) -> bool
    requires { (0 < token) × (0 < cell) }
    ensures { result ≡ (Rows.whole token 2048 inputs && (Rows.whole pick_width 2048 picks && (Rows.whole token 2048 ledger && Rows.whole cell 1024 cells))) }
{
    buffer::whole(token, token::MOST, inputs)
        && (buffer::whole(pick::WIDTH, token::MOST, picks)
            && (buffer::whole(token, token::MOST, ledger)
                && buffer::whole(cell, cell::MOST, cells)))
}

// The stores of a plain run.
#[derive(Clone, Copy)]
pub struct Stores {
    pub inputs: usize,
    pub picks: usize,
    pub ledger: usize,
    pub cells: usize,
}

impl Lent for Stores {
    ghost checked = { λ s. check_stores s.inputs s.picks s.ledger s.cells };

    fn check(&self) -> Result<(), Fault> {
        if all_whole(
            token::WIDTH,
            cell::WIDTH,
            self.inputs,
            self.picks,
            self.ledger,
            self.cells,
        ) {
            Ok(())
        } else {
            Err(Refusal::BadStore.at(0))
        }
    }
}

// 02, R-7: a log of whole records, as many as the budget or 2,048.
fn log_suffices(budget: usize, log: usize) -> bool
    ensures { result ≡ log_suffices budget log }
{
    let records = log / log::WIDTH;
    log % log::WIDTH == 0 && (budget <= records || token::MOST <= records)
}

// The same with a log, for so many firings.
#[derive(Clone, Copy)]
pub struct Logged {
    pub stores: Stores,
    pub budget: usize,
    pub log: usize,
}

impl Lent for Logged {
    ghost checked = { λ l. check_log_stores l.stores.inputs l.stores.picks l.stores.ledger l.stores.cells l.budget l.log };

    fn check(&self) -> Result<(), Fault> {
        self.stores.check()?;
        if log_suffices(self.budget, self.log) {
            Ok(())
        } else {
            Err(Refusal::BadStore.at(0))
        }
    }
}
