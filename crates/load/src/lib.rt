// What an accepted run does before its first firing: the cells are cleared, and the input tokens are written to the ledger.
#![tactic(auto)]

ghost use Rattle.std.specs.Prelude.{◌≡◌, ◌/◌, ◌≤◌, ◌<◌, length, replicate};
ghost use Rattle.buffer.specs.Rows.{all_rows, All};
ghost use Rattle.record.specs.TokensAndTags.{decode_token};
ghost use Rattle.record.specs.Widths.{token_width};
ghost use Rattle.store.specs.Matching.{Matching};
ghost use Rattle.load.specs.Loaded.{ProperArrival, Alone, Loaded};

use record::codec::{Decode, Encode};
use record::tag::Tag;
use record::token;
use record::token::Token;
use store_enabled::{Store, Tables};

// 01, "Firing": an accepted run first sets all cells absent. The bytes of an absent cell are zeros.
pub fn clear(cells: &mut [u8])
    ensures { cells.new ≡ replicate (length cells.old) 0 }
{
    cells.fill(0);
}

// The input tokens arrive in their order in an empty ledger. The answer is how many they are. They are written here and then entered,
// so that `store::arrive` is called in one place.
pub fn inputs(tables: &Tables, store: &mut Store, ledger: &mut [u8], inputs: &[u8]) -> usize
    requires { Matching tables.now store.old.links store.old.flags ledger.old 0
        × (length inputs.now / token_width ≤ length ledger.old / token_width)
        × (length ledger.old / token_width ≤ 2048)
        × All (ProperArrival tables.now) (all_rows token_width decode_token inputs.now)
        × Alone inputs.now }
    ensures { Loaded tables.now store.new.links store.new.flags ledger.old ledger.new inputs.now result }
{
    let n = inputs.len() / token::WIDTH;
    for i in 0..n {
        let t = Token::read(inputs, i);
        t.write(ledger, i);
        // 01, "Tokens and tags": an input carries the root tag, of which no bucket has to be worked out.
        let own = t.tag;
        let tag = Tag::root(own.instruction);
        let Some(slot) = store::seek(&store.links, ledger, i, tag, t.port) else {
            // No two inputs stand on one port of a tag.
            return i;
        };
        store::enter(tables, store, ledger, i, t, slot);
    }
    n
}
