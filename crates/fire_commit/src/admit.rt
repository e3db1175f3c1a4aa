// Whether the outputs of a firing can go into the ledger, and where: refusals 8 and 9.
ghost use Rattle.std.specs.Prelude.{◌≡◌, ◌/◌, ◌≤◌, length};
ghost use Rattle.record.specs.TokensAndTags.{tokens};
ghost use Rattle.record.specs.Widths.{token_width};
ghost use Rattle.store_enabled.specs.Store.{Known};
ghost use Rattle.fire_outputs.specs.Outputs.{LowPorts};
ghost use Rattle.fire_commit.specs.Admitted.{SlotBeside, admitted_of, AdmittedAs};

use fire_effect::output::{Key, Outputs};
use record::token;
use rules::answer::Refusal;
use store_chains::{Links, Slot};

// The slot of the second of two outputs that differ, once the first stands in record `used`: where both have one tag, they are
// partners.
fn beside(first: Key, second: Key, slot: Slot, used: usize) -> Slot
    ensures { SlotBeside first second slot used result }
{
    if first.tag == second.tag {
        Slot {
            bucket: slot.bucket,
            partner: Some(used),
        }
    } else {
        slot
    }
}

// Where the outputs of a firing may arrive in the ledger, each once those before it have: refusal 8, then 9.
// The caller lends the ledger's bytes, so the number of its tokens goes beside them.
#[tactic(auto, unfolding(crate::specs::Admitted::admitted_of, crate::specs::Admitted::any_taken_of, crate::specs::Admitted::is_taken))]
pub fn admit(
    links: &Links,
    ledger: &[u8],
    used: usize,
    outputs: Outputs,
) -> Result<(Slot, Slot), Refusal>
    requires { Known links.now ledger.now used × (used ≤ 2048) × (outputs.count ≤ 2) × LowPorts outputs }
    ensures { AdmittedAs result (admitted_of (length ledger.now / token_width) (tokens used ledger.now) outputs) (tokens used ledger.now) outputs }
{
    let first = outputs.first;
    let second = outputs.second;
    let none = Slot {
        bucket: 0,
        partner: None,
    };
    if ledger.len() / token::WIDTH < used + (outputs.count as usize) {
        return Err(Refusal::LedgerFull);
    }
    if outputs.count == 0 {
        return Ok((none, none));
    }
    let tag = first.tag;
    let Some(slot) = store::seek(links, ledger, used, tag, first.port) else {
        return Err(Refusal::SecondToken);
    };
    if outputs.count == 1 {
        return Ok((slot, none));
    }
    if first == second {
        return Err(Refusal::SecondToken);
    }
    let other = second.tag;
    let Some(next) = store::seek(links, ledger, used, other, second.port) else {
        return Err(Refusal::SecondToken);
    };
    Ok((slot, beside(first, second, next, used)))
}
