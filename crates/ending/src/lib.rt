// How a run ends that fires no more: completed, hung or spent.
#![tactic(auto)]

ghost use Rattle.std.specs.Prelude.{◌≡◌, ◌/◌, ◌≤◌, ◌<◌, length};
ghost use Rattle.record.specs.TokensAndTags.{tokens, token_at};
ghost use Rattle.record.specs.Widths.{token_width};
ghost use Rattle.store_flags.specs.Flags.{places};
ghost use Rattle.store_enabled.specs.Enabled.{enabled_places};
ghost use Rattle.ending.specs.Endings.{proper_by, state_spent, four_spent, EndsWith, RestsAs};

use record::codec::Decode;
use record::token;
use record::token::{Content, Token};
use rules::answer::Outcome;
use store_enabled::Tables;
use store_flags::Flags;

// Whether a completed run may leave this token: a spent one, or a live result, which waits for no operand.
fn proper(tables: &Tables, t: Token) -> bool
    ensures { result ≡ proper_by tables.now t }
{
    let tag = t.tag;
    let content = t.content;
    match content {
        Content::Live(_) => store_enabled::arity(tables, tag) == 0,
        Content::Spent(_) => true,
        Content::Deferred(_) => false,
    }
}

// Whether the token of record i of a ledger is spent, by its state alone: decoding the token would read all of it.
fn spent_at(ledger: &[u8], i: usize) -> bool
    requires { i < length ledger.now / token_width }
    ensures { result ≡ state_spent ledger.now i }
{
    ledger[i * token::WIDTH + token::STATE] == 1
}

// Whether a completed run may leave record i of a ledger. Most tokens at a run's end are spent: of these the state alone is read.
pub fn proper_at(tables: &Tables, ledger: &[u8], i: usize) -> bool
    requires { i < length ledger.now / token_width }
    ensures { result ≡ proper_by tables.now (token_at ledger.now i) }
{
    spent_at(ledger, i) || proper(tables, Token::read(ledger, i))
}

// Whether there are four records before record i of a ledger, and they are spent.
fn four_spent(ledger: &[u8], i: usize) -> bool
    requires { i ≤ length ledger.now / token_width }
    ensures { result ≡ four_spent ledger.now i }
{
    4 <= i
        && (spent_at(ledger, i - 1)
            && (spent_at(ledger, i - 2) && (spent_at(ledger, i - 3) && spent_at(ledger, i - 4))))
}

// 02, R-2: with nothing enabled, a run is completed only if every live token is a result and none is deferred.
// The caller lends the ledger's bytes (the C interface), so the number of its tokens goes beside them.
pub fn ending(tables: &Tables, ledger: &[u8], used: usize) -> Outcome
    requires { used ≤ length ledger.now / token_width }
    ensures { EndsWith result tables.now (tokens used ledger.now) }
{
    // From the newest record back: these are the likeliest to be in the processor's cache, and to wait.
    let mut i = used;
    // No `for`: an iteration passes four records, or one.
    while 0 < i {
        if four_spent(ledger, i) {
            i -= 4;
        } else {
            i -= 1;
            if !proper_at(tables, ledger, i) {
                return Outcome::Hung;
            }
        }
    }
    Outcome::Completed
}

// How a run ends whose budget is spent: completed and hung are tried first.
pub fn rest(tables: &Tables, flags: &Flags, ledger: &[u8], used: usize) -> Outcome
    requires { (places flags.now ≡ enabled_places tables.now (tokens used ledger.now)) × (used ≤ length ledger.now / token_width) }
    ensures { RestsAs result tables.now (tokens used ledger.now) }
{
    if store::enabled_count(flags) == 0 {
        ending(tables, ledger, used)
    } else {
        Outcome::Spent
    }
}
