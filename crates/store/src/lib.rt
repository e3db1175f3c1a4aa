// The matching store: a ledger, with two arrays beside it. By `links` a token is found by its tag and port, and the tokens
// deferred on a cell are woken; by `flags` the enabled activities are counted and found by their number; an activity is found by its
// tag; all without a scan of the ledger. `used` is the number of tokens in the ledger, and `tables` those of the graph. The caller lends the
// ledger's bytes, so the number of its tokens goes beside them; and `Matching` and `Known` stand in the clauses and are no invariants of a
// type, since they speak of those bytes.
#![tactic(auto)]

ghost use Rattle.std.specs.Prelude.{◌≡◌, List, [], ◌∷◌, ◌++◌, map, ℕ, ◌+◌, ◌*◌, ◌/◌, ◌<◌, length, get_or, drop};
ghost use Rattle.buffer.specs.Rows.{put_row, joined};
ghost use Rattle.record.specs.TokensAndTags.{encode_token, tokens, stands_at};
ghost use Rattle.record.specs.Widths.{token_width};
ghost use Rattle.record.specs.declared.token.Content.TheVariants.{Live};
ghost use Rattle.store_flags.specs.Flags.{places};
ghost use Rattle.store_chains.specs.Search.{first_from, FoundWithin};
ghost use Rattle.store_chains.specs.Slots.{Open, SoughtAt};
ghost use Rattle.store_chains.specs.Partners.{partner_at};
ghost use Rattle.store_chains.specs.Deferred as Deferred;
ghost use Rattle.store_enabled.specs.Store.{Known, enabled_at, StandingRecord, Spendable, states_spent, tokens_spent};
ghost use Rattle.store.specs.Matching.{Matching};

use record::codec::Decode;
use record::tag::Tag;
use record::token::{Content, Token};
use store_chains::{Links, Slot};
use store_enabled::{Store, Tables};
use store_flags::Flags;

// The token that stands at a port of a tag. A port is a number, as in the records of the lent ledger (`Token`).
pub fn find(links: &Links, ledger: &[u8], used: usize, tag: Tag, port: u8) -> Option<usize>
    requires { Known links.now ledger.now used }
    ensures { (result ≡ first_from (stands_at tag port) 0 (tokens used ledger.now)) × FoundWithin result used }
{
    store_chains::find(links, ledger, used, tag, port)
}

// Where a token may arrive at a port of a tag, or `None` if one stands there already.
pub fn seek(links: &Links, ledger: &[u8], used: usize, tag: Tag, port: u8) -> Option<Slot>
    requires { Known links.now ledger.now used × (port < 2) }
    ensures { SoughtAt result (tokens used ledger.now) tag port }
{
    store_chains::seek(links, ledger, used, tag, port)
}

// The place of the partner of the token at a place.
pub fn partner(links: &Links, place: usize) -> Option<usize>
    requires { place < 2048 }
    ensures { result ≡ partner_at links.now place }
{
    store_chains::partner(links, place)
}

// How many activities are enabled.
pub fn enabled_count(flags: &Flags) -> usize
    ensures { result ≡ length (places flags.now) }
{
    flags.count()
}

// The place of enabled activity number k, counted from 0.
pub fn enabled_at(flags: &Flags, k: usize) -> usize
    requires { k < length (places flags.now) }
    ensures { (result ≡ get_or (places flags.now) k 0) × (result < 2048) }
{
    flags.select(k)
}

// The place of the activity of a tag, if it is enabled.
pub fn enabled_by_tag(
    tables: &Tables,
    links: &Links,
    ledger: &[u8],
    used: usize,
    tag: Tag,
) -> Option<usize>
    requires { Known links.now ledger.now used }
    ensures { (result ≡ enabled_at tables.now (tokens used ledger.now) tag) × FoundWithin result used }
{
    store_enabled::enabled_by_tag(tables, links, ledger, used, tag)
}

// A token arrives in its slot: it becomes record `used`.
pub fn arrive(
    tables: &Tables,
    store: &mut Store,
    ledger: &mut [u8],
    used: usize,
    t: Token,
    slot: Slot,
)
    requires { Matching tables.now store.old.links store.old.flags ledger.old used
        × (used < length ledger.old / token_width)
        × (used < 2048)
        × (t.port < 2)
        × Deferred.LowCell t.content
        × Open (tokens used ledger.old) t.tag t.port slot }
    ensures ledger_after { ledger.new ≡ put_row token_width ledger.old used (encode_token t) }
    ensures ledger_after_2 { tokens (used + 1) ledger.new ≡ tokens used ledger.old ++ t ∷ [] }
    ensures cases { Matching tables.now store.new.links store.new.flags ledger.new (used + 1) }
{
    store_enabled::append(tables, store, ledger, used, t, slot);
}

// The token that stands in record `used` already arrives, and nothing is written.
pub fn enter(tables: &Tables, store: &mut Store, ledger: &[u8], used: usize, t: Token, slot: Slot)
    requires { Matching tables.now store.old.links store.old.flags ledger.now used
        × (used < length ledger.now / token_width)
        × (used < 2048)
        × StandingRecord tables.now ledger.now used t
        × Deferred.LowCell t.content
        × Open (tokens used ledger.now) t.tag t.port slot }
    ensures { Matching tables.now store.new.links store.new.flags ledger.now (used + 1) }
{
    store_enabled::enter(tables, store, ledger, used, t, slot);
}

// The operands of an enabled activity, at its place and at another, are spent; where one is waited for, both are its place. They were
// live, so the chains of deferred tokens stay right.
pub fn spend_operands(flags: &mut Flags, ledger: &mut [u8], place: usize, other: usize)
    requires { (get_or flags.old place 0 ≡ 1) × (place < 2048) × (place < length ledger.old / token_width) × (other < length ledger.old / token_width) }
    ensures ledger_after { ledger.new ≡ states_spent ledger.old place other }
    ensures by_index { (tables links : List ℕ) (used : ℕ) → Matching tables links flags.old ledger.old used → Spendable ledger.old used place other
        → (tokens used ledger.new ≡ tokens_spent used ledger.old place other) × Matching tables links flags.new ledger.new used }
{
    store_enabled::spend_operands(flags, ledger, place, other);
}

// A deferred token with the value that it waited for.
fn woken(t: Token, v: i32) -> Token
    ensures { result ≡ record { tag = t.tag; port = t.port; content = Live v } }
{
    let tag = t.tag;
    Token {
        tag,
        port: t.port,
        content: Content::Live(v),
    }
}

// Every token that is deferred on a cell becomes live, with the cell's value. The cost is that of the tokens woken.
pub fn wake(tables: &Tables, store: &mut Store, ledger: &mut [u8], used: usize, cell: u32, v: i32)
    requires { Matching tables.now store.old.links store.old.flags ledger.old used × (cell < 1024) }
    ensures ledger_after { ledger.new ≡ joined encode_token (map (Deferred.woken cell v) (tokens used ledger.old)) ++ drop (used * token_width) ledger.old }
    ensures ledger_after_2 { tokens used ledger.new ≡ map (Deferred.woken cell v) (tokens used ledger.old) }
    ensures cases { Matching tables.now store.new.links store.new.flags ledger.new used }
{
    let head = (cell as usize) + store_chains::WAITING;
    let mut at = store_chains::place_at(&store.links, head);
    while let Some(i) = at {
        let t = Token::read(ledger, i);
        let u = woken(t, v);
        store_enabled::change(tables, &store.links, &mut store.flags, ledger, used, i, u);
        at = store_chains::place_at(&store.links, i + store_chains::LATER);
    }
    store.links[head] = 0;
}

// Whether a token is deferred on a cell.
pub fn any_deferred(links: &Links, cell: usize) -> bool
    requires { cell < 1024 }
    ensures { (tables flags ledger : List ℕ) (used : ℕ) → Matching tables links.now flags ledger used → result ≡ Deferred.any_on cell (tokens used ledger) }
{
    store_chains::place_at(links, cell + store_chains::WAITING).is_some()
}
