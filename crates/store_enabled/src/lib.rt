// The enabled activities of a ledger, kept as flags by place: a token is added, or one is changed, or the
// operands of an activity are spent, and the flag of its activity is put right.
#![tactic(auto)]

ghost use Rattle.std.specs.Prelude.{◌≡◌, true, ◌&&◌, List, [], ◌∷◌, ◌++◌, ℕ, ◌+◌, ◌/◌, ◌<◌, ltb, length, get_or, set, replicate, Some};
ghost use Rattle.buffer.specs.Rows.{put_row};
ghost use Rattle.record.specs.TokensAndTags.{encode_token, tokens, token_at, stands_at};
ghost use Rattle.record.specs.Widths.{token_width};
ghost use Rattle.store_chains.specs.Search.{first_from, FoundWithin};
ghost use Rattle.store_chains.specs.Slots.{Open};
ghost use Rattle.store_chains.specs.Deferred.{LowCell, Waiting};
ghost use Rattle.store_enabled.specs.Enabled.{is_live_record, operands_live, waited_for, arity_of, earliest_of};
ghost use Rattle.store_enabled.specs.Store.{Known, Stored, raised_if, live_found, enabled_at, ready_of, ready_with, Last, StandingRecord, Spendable, states_spent, tokens_spent};

use record::codec::Encode;
use record::tag::Tag;
use record::token;
use record::token::{Content, Token};
use store_chains::{Links, Slot};
use store_flags::Flags;

// The tables of a graph: returns by site, the named arrays, and the entries of the instructions.
pub const TABLES_LENGTH: usize = 641;

pub type Tables = [u16; TABLES_LENGTH];

// What a run keeps beside the records of its ledger: chains through them, and the flags of the enabled activities. The ledger is the
// caller's bytes (the C interface) and the tables are only read, so both go beside it. The flags stand first: with the links first a run
// took up to 3 % more instructions.
#[derive(Drop)]
pub struct Store {
    pub flags: Flags,
    pub links: Links,
}

impl Store {
    // Of an empty ledger.
    pub fn new() -> Store
        ensures { (result.links ≡ replicate 11264 0) × (result.flags ≡ replicate 2048 0) }
    {
        Store {
            flags: Flags::new(),
            links: [0; store_chains::LENGTH],
        }
    }
}

// Whether what was found is live: the state of its record is 0.
#[tactic(auto, using(crate::proofs::Places::live_state))]
fn live(ledger: &[u8], f: Option<usize>) -> bool
    requires { FoundWithin f (length ledger.now / token_width) }
    ensures { result ≡ live_found (token_at ledger.now) f }
{
    f.is_some_and(|i| ledger[i * token::WIDTH + token::STATE] == 0)
}

// Whether all operands of an activity are live, where f and g stand on its ports. Operand counts are numbers, as they stand in the tables of
// a graph: one array with the returns and the named arrays (docs/DECISIONS.md, 103).
fn ready(ledger: &[u8], f: Option<usize>, g: Option<usize>, operands: u16) -> bool
    requires { FoundWithin f (length ledger.now / token_width) × FoundWithin g (length ledger.now / token_width) }
    ensures { result ≡ ready_of operands (live_found (token_at ledger.now) f) (live_found (token_at ledger.now) g) }
{
    if operands == 1 {
        return live(ledger, f);
    }
    if operands == 2 {
        if live(ledger, f) {
            return live(ledger, g);
        }
        return false;
    }
    false
}

// The same, where `own` stands on a port and `other` on the other one. A port is a number, as in the records of the lent ledger (`Token`).
fn ready_with(
    ledger: &[u8],
    port: u8,
    own: Option<usize>,
    other: Option<usize>,
    operands: u16,
) -> bool
    requires { FoundWithin own (length ledger.now / token_width) × FoundWithin other (length ledger.now / token_width) }
    ensures { result ≡ ready_with operands port (live_found (token_at ledger.now) own) (live_found (token_at ledger.now) other) }
{
    if port == 0 {
        ready(ledger, own, other, operands)
    } else {
        ready(ledger, other, own, operands)
    }
}

// Raises the flag of the activity of the token at `own`, if its operands are all live. Its own port is
// known, so only the partner is looked up.
// The caller lends the ledger's bytes, so the number of its tokens goes beside them.
fn settle_changed(
    flags: &mut Flags,
    links: &Links,
    ledger: &[u8],
    used: usize,
    own: usize,
    tag: Tag,
    port: u8,
    operands: u16,
)
    requires { Known links.now ledger.now used × (own < used) × (port < 2) × (first_from (stands_at tag port) 0 (tokens used ledger.now) ≡ Some own) }
    ensures flags_after { flags.new
        ≡ raised_if (operands_live operands (tokens used ledger.now) tag) flags.old
        (earliest_of (tokens used ledger.now) tag) }
{
    let other = store_chains::partner(links, own);
    if ready_with(ledger, port, Some(own), other, operands) {
        let place = own.min(other.unwrap_or(own));
        if !flags.is_raised(place) {
            flags.raise(place);
        }
    }
}

// Whether a live operand completes its activity, whose other operand is `other` where two are waited for.
fn completes(ledger: &[u8], other: Option<usize>, operands: u16) -> bool
    requires { FoundWithin other (length ledger.now / token_width) }
    ensures { result ≡ ready_of operands true (live_found (token_at ledger.now) other) }
{
    if operands == 1 {
        return true;
    }
    if operands == 2 {
        return live(ledger, other);
    }
    false
}

// LEAVE's entry in the tables of a graph; any other entry is an operand count. It stays a number: the tables are
// one array of numbers in fixed memory, and `arity_of`, which the contracts cite, reads each entry there.
pub const LEAVE_ENTRY: u16 = 3;

// Whether a live token on a port of a tag is an operand and completes its activity, by the entry of its instruction. The path is looked
// at for LEAVE alone, and no number is made of it.
#[tactic(auto, unfolding(crate::specs::Enabled::waited_for))]
fn completes_by(ledger: &[u8], other: Option<usize>, entry: u16, tag: Tag, port: u8) -> bool
    requires { FoundWithin other (length ledger.now / token_width) × (port < 2) }
    ensures { result ≡ ltb port (waited_for entry tag) && ready_of (waited_for entry tag) true (live_found (token_at ledger.now) other) }
{
    if entry == 1 {
        return port == 0;
    }
    if entry == 2 {
        return live(ledger, other);
    }
    if entry == LEAVE_ENTRY {
        let path = tag.path;
        if path.is_root() {
            return false;
        }
        return port == 0;
    }
    false
}

// Raises the flag of the activity of the token that arrived last, which is live, if that completes it. Its partner is given, and is
// earlier; where the token is an operand, the flag was not raised before.
fn settle_arrived(
    flags: &mut Flags,
    ledger: &[u8],
    own: usize,
    tag: Tag,
    port: u8,
    other: Option<usize>,
    entry: u16,
)
    requires { Last ledger.now own tag port other
        × (is_live_record (token_at ledger.now own).content ≡ true)
        × (port < waited_for entry tag → get_or flags.old (earliest_of (tokens (own + 1) ledger.now) tag) 0 ≡ 0) }
    ensures flags_after { flags.new
        ≡ raised_if (ltb port (waited_for entry tag) && operands_live (waited_for entry tag) (tokens (own + 1) ledger.now) tag)
        flags.old (earliest_of (tokens (own + 1) ledger.now) tag) }
{
    if completes_by(ledger, other, entry, tag, port) {
        flags.raise(other.unwrap_or(own));
    }
}

// How many operands the activity of a tag waits for, by the entry of its instruction. R-5: a token at a LEAVE under path 0 is
// a result.
#[tactic(auto, unfolding(crate::specs::Enabled::waited_for))]
fn waited_for(entry: u16, tag: Tag) -> u16
    ensures { result ≡ waited_for entry tag }
{
    if entry != LEAVE_ENTRY {
        return entry;
    }
    let path = tag.path;
    if path.is_root() { 0 } else { 1 }
}

// The entry of an instruction in the tables of a run, whose last part has them: an absent one waits for none.
fn entry_of(tables: &[u16], instruction: u16) -> u16
    ensures { result ≡ get_or tables.now (instruction + 385) 0 }
{
    let i = (instruction as usize) + 385;
    if i < tables.len() { tables[i] } else { 0 }
}

// How many operands the activity of a tag waits for, by those tables.
pub fn arity(tables: &[u16], tag: Tag) -> u16
    ensures { result ≡ arity_of tables.now tag }
{
    waited_for(entry_of(tables, tag.instruction), tag)
}

// The place of the activity of a tag, if it is enabled: its operands are found by their ports.
pub fn enabled_by_tag(
    tables: &Tables,
    links: &Links,
    ledger: &[u8],
    used: usize,
    tag: Tag,
) -> Option<usize>
    requires { Known links.now ledger.now used }
    ensures { (result ≡ enabled_at tables.now (tokens used ledger.now) tag) × FoundWithin result used }
{
    let first = store_chains::find(links, ledger, used, tag, 0);
    let second = store_chains::find(links, ledger, used, tag, 1);
    if ready(ledger, first, second, arity(tables, tag)) {
        Some(first.unwrap_or(used).min(second.unwrap_or(used)))
    } else {
        None
    }
}

// Adds t after the used records, in its slot. A flag that was raised stays. `Stored` is no invariant of the store: it speaks of the ledger's
// bytes too, which are the caller's.
pub fn append(
    tables: &Tables,
    store: &mut Store,
    ledger: &mut [u8],
    used: usize,
    t: Token,
    slot: Slot,
)
    requires { Stored tables.now store.old.links store.old.flags ledger.old used
        × (used < length ledger.old / token_width)
        × (used < 2048)
        × (t.port < 2)
        × LowCell t.content
        × Open (tokens used ledger.old) t.tag t.port slot }
    ensures ledger_after { ledger.new ≡ put_row token_width ledger.old used (encode_token t) }
    ensures ledger_after_2 { tokens (used + 1) ledger.new ≡ tokens used ledger.old ++ t ∷ [] }
    ensures stored { Stored tables.now store.new.links store.new.flags ledger.new (used + 1) }
    ensures waiting { Waiting store.old.links (tokens used ledger.old) → Waiting store.new.links (tokens (used + 1) ledger.new) }
{
    let tag = t.tag;
    t.write(ledger, used);
    store_chains::enter(&mut store.links, used, t, slot);
    let entry = entry_of(tables, tag.instruction);
    let other = slot.partner;
    let content = t.content;
    if let Content::Live(_) = content {
        settle_arrived(&mut store.flags, ledger, used, tag, t.port, other, entry);
    }
}

// Enters the token t that stands in record `used` already, in its slot. One that is not live enables nothing. `settle_arrived` is not called: a
// second caller would cost each arrival of a run a call.
pub fn enter(tables: &Tables, store: &mut Store, ledger: &[u8], used: usize, t: Token, slot: Slot)
    requires { Stored tables.now store.old.links store.old.flags ledger.now used
        × (used < length ledger.now / token_width)
        × (used < 2048)
        × StandingRecord tables.now ledger.now used t
        × LowCell t.content
        × Open (tokens used ledger.now) t.tag t.port slot }
    ensures ledger_value { tokens (used + 1) ledger.now ≡ tokens used ledger.now ++ t ∷ [] }
    ensures stored { Stored tables.now store.new.links store.new.flags ledger.now (used + 1) }
    ensures waiting { Waiting store.old.links (tokens used ledger.now) → Waiting store.new.links (tokens (used + 1) ledger.now) }
{
    let tag = t.tag;
    store_chains::enter(&mut store.links, used, t, slot);
    let content = t.content;
    if let Content::Live(_) = content {
        let other = slot.partner;
        if completes(ledger, other, arity(tables, tag)) {
            store.flags.raise(other.unwrap_or(used));
        }
    }
}

// Puts t, of the same tag and port, in the place of token i. What was live stays so, and so does a flag that was raised.
pub fn change(
    tables: &Tables,
    links: &Links,
    flags: &mut Flags,
    ledger: &mut [u8],
    used: usize,
    i: usize,
    t: Token,
)
    requires { Stored tables.now links.now flags.old ledger.old used
        × (i < used)
        × (t.tag ≡ (token_at ledger.old i).tag)
        × (t.port ≡ (token_at ledger.old i).port)
        × (is_live_record (token_at ledger.old i).content ≡ true → is_live_record t.content ≡ true) }
    ensures ledger_after { ledger.new ≡ put_row token_width ledger.old i (encode_token t) }
    ensures ledger_after_2 { tokens used ledger.new ≡ set (tokens used ledger.old) i t }
    ensures stored { Stored tables.now links.now flags.new ledger.new used }
{
    let tag = t.tag;
    t.write(ledger, i);
    let operands = arity(tables, tag);
    settle_changed(flags, links, ledger, used, i, tag, t.port, operands);
}

// Spends the operands of an enabled activity, which stand at its place and at another; where one is waited for, both are its place. The
// activity is enabled no more, and its flag stands at its place, so nothing has to be searched for.
pub fn spend_operands(flags: &mut Flags, ledger: &mut [u8], place: usize, other: usize)
    requires { (get_or flags.old place 0 ≡ 1) × (place < 2048) × (place < length ledger.old / token_width) × (other < length ledger.old / token_width) }
    ensures ledger_after { ledger.new ≡ states_spent ledger.old place other }
    ensures by_index { (tables links : List ℕ) (used : ℕ) → Stored tables links flags.old ledger.old used → Spendable ledger.old used place other
        → (tokens used ledger.new ≡ tokens_spent used ledger.old place other) × Stored tables links flags.new ledger.new used }
{
    ledger[place * token::WIDTH + token::STATE] = 1;
    ledger[other * token::WIDTH + token::STATE] = 1;
    flags.lower(place);
}
