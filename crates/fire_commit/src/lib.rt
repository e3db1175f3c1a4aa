// Output: the part of a firing that looks at ledger and cells and not at the instruction.
#![tactic(auto)]

pub mod admit;

ghost use Rattle.std.specs.Prelude.{◌/◌, length};
ghost use Rattle.record.specs.TokensAndTags.{tokens};
ghost use Rattle.record.specs.Widths.{token_width, cell_width};
ghost use Rattle.fire_outputs.specs.Outputs.{cells_in, Fireable};
ghost use Rattle.fire_commit.specs.Commit.{committed_of, CommittedTo, Fitting};

use fire_effect::operate::Action;
use fire_effect::output::Outputs;
use fire_outputs::Places;
use rules::answer::Refusal;
use store_enabled::{Store, Tables};

// An action on ledger and cells, and its outputs: gives the number of tokens in the ledger after it. What
// refuses them is asked before anything is written: 11, then 8 and 9. A refusal leaves both as they were.
// The caller lends the ledger's bytes, so the number of its tokens goes beside them.
pub fn commit(
    tables: &Tables,
    store: &mut Store,
    ledger: &mut [u8],
    cells: &mut [u8],
    used: usize,
    operands: Places,
    action: Action,
    sent: Outputs,
) -> Result<usize, Refusal>
    requires { Fireable tables.now store.old.links store.old.flags ledger.old cells.old used operands.place operands.other × Fitting (length cells.old / cell_width) action sent }
    ensures { CommittedTo result
        (committed_of (length ledger.old / token_width) (tokens used ledger.old) (cells_in cells.old) operands.place
        operands.other action sent) tables.now store.new.links store.new.flags ledger.new cells.new used
        ledger.old cells.old }
{
    if fire_outputs::writes_again(cells, action) {
        return Err(Refusal::SecondWrite);
    }
    let (first, second) = admit::admit(&store.links, ledger, used, sent)?;
    Ok(fire_outputs::carry_out(
        tables, store, ledger, cells, used, operands, action, sent, first, second,
    ))
}
