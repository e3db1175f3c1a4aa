// What is chosen for a turn: of the enabled activities, or of those that a bound does not hold back, the one that the order of the run takes.
ghost use Rattle.std.specs.Prelude.{ℕ, ◌%◌, ◌<◌, ◌≡◌, List, [], length, get_or, unwrap_or, option_copied};
ghost use Rattle.std.proofs.Math.Option.{none};
ghost use Rattle.record.specs.Logs.{tag_named};
ghost use Rattle.record.specs.TokensAndTags.{tokens};
ghost use Rattle.rules.specs.Log.{names_in};
ghost use Rattle.store_chains.specs.Search.{FoundWithin};
ghost use Rattle.store_enabled.specs.Store.{enabled_at};
ghost use Rattle.store.specs.Matching.{Matching};
ghost use Rattle.store_flags.specs.Flags.{places, minus, Under};
ghost use Rattle.engine.specs.Turns.{ByPicks, Plain, ByBound, Flagged, HeldBeside, ChosenAs};
ghost use Rattle.engine.specs.declared.choice.Order.TheVariants.{Oldest, Picks, Log, Free};

use record::codec::Decode;
use record::tag::Tag;
use record::token::Token;
use record::{log, pick};
use rules::answer::{Outcome, Refusal};
use store_enabled::{Store, Tables};
use store_flags::Flags;

// How the activity of a turn is chosen: the first of all, by picks, by the records of a log, or by picks among those that a
// bound does not hold back.
#[derive(Clone, Copy)]
pub enum Order {
    Oldest,
    Picks,
    Log,
    Free(usize),
}

// The number that a pick takes of e activities. One below e is that number itself, and needs no division.
fn number_of(pick: usize, e: usize) -> usize
    requires { 0 < e }
    ensures { result ≡ pick % e }
{
    if pick < e { pick } else { pick % e }
}

// The first of the enabled activities. `Flagged` speaks of the ledger's bytes, which are the caller's, and so is no invariant of the
// flags; for the same reason the number of the ledger's tokens goes beside it.
fn oldest(tables: &Tables, flags: &Flags, ledger: &[u8], used: usize) -> Result<usize, Outcome>
    requires { Flagged tables.now flags.now ledger.now used }
    ensures { (flags held : List ℕ) → ChosenAs result Oldest [] 0 tables.now flags held ledger.now used }
{
    if flags.is_empty() {
        Err(ending::ending(tables, ledger, used))
    } else {
        Ok(store::enabled_at(flags, 0))
    }
}

// The one that the pick of this turn takes.
#[tactic(auto, unfolding(rules::specs::Run::picks_of))]
fn by_pick(
    tables: &Tables,
    flags: &Flags,
    ledger: &[u8],
    used: usize,
    picks: &[u8],
    firings: usize,
) -> Result<usize, Outcome>
    requires { Flagged tables.now flags.now ledger.now used }
    ensures { (flags held : List ℕ) → ChosenAs result Picks picks.now firings tables.now flags held ledger.now used }
{
    let e = store::enabled_count(flags);
    if e == 0 {
        return Err(ending::ending(tables, ledger, used));
    }
    let number = number_of(pick::pick_at(picks, firings), e);
    Ok(store::enabled_at(flags, number))
}

// The tag that record i of a log names. One that is not whole names none, and so does one past the last.
fn name_at(log: &[u8], i: usize) -> Option<Tag>
    ensures { tag_named result ≡ get_or (names_in log.now) i none }
{
    if log.len() / log::WIDTH < i {
        return None;
    }
    log::name_at(log, i)
}

// The place of the activity of a tag, if it is enabled. A log of a run without picks names the first each time, so that one is tried
// before any search.
fn place_named(
    tables: &Tables,
    store: &Store,
    ledger: &[u8],
    used: usize,
    tag: Tag,
) -> Option<usize>
    requires { Matching tables.now store.now.links store.now.flags ledger.now used }
    ensures { (result ≡ enabled_at tables.now (tokens used ledger.now) tag) × FoundWithin result used }
{
    if !store.flags.is_empty() {
        let first = store::enabled_at(&store.flags, 0);
        let t = Token::read(ledger, first);
        if t.tag == tag {
            return Some(first);
        }
    }
    store::enabled_by_tag(tables, &store.links, ledger, used, tag)
}

// The one that the record of this turn names, if it is enabled.
fn by_record(
    tables: &Tables,
    store: &Store,
    ledger: &[u8],
    used: usize,
    log: &[u8],
    firings: usize,
) -> Result<usize, Outcome>
    requires { Matching tables.now store.now.links store.now.flags ledger.now used }
    ensures { (flags held : List ℕ) → ChosenAs result Log log.now firings tables.now flags held ledger.now used }
{
    let not_enabled = Outcome::Refused(Refusal::NotEnabled, firings);
    let tag = name_at(log, firings).ok_or(not_enabled)?;
    place_named(tables, store, ledger, used, tag).ok_or(not_enabled)
}

// The place of number k of the activities that are not held back. Where none is, they are all that are enabled.
fn free_at(flags: &Flags, held: &Flags, k: usize) -> usize
    requires { Under held.now flags.now × (k < length (places (minus flags.now held.now))) }
    ensures { result ≡ get_or (places (minus flags.now held.now)) k 0 }
{
    if held.count() == 0 {
        flags.select(k)
    } else {
        store_flags::Free::new(flags, held).select(k)
    }
}

// The first of those that are not held back: without picks each is 0.
fn first_free(
    tables: &Tables,
    flags: &Flags,
    held: &Flags,
    ledger: &[u8],
    used: usize,
) -> Result<usize, Outcome>
    requires { Flagged tables.now flags.now ledger.now used × Under held.now flags.now }
    ensures { (bound f : ℕ) → ChosenAs result (Free bound) [] f tables.now flags.now held.now ledger.now used }
{
    match store_flags::Free::new(flags, held).first() {
        Some(place) => Ok(place),
        None => Err(ending::ending(tables, ledger, used)),
    }
}

// 02, R-9: the one that the pick of this turn takes of those that are not held back.
fn by_free(
    tables: &Tables,
    flags: &Flags,
    held: &Flags,
    ledger: &[u8],
    used: usize,
    picks: &[u8],
    firings: usize,
) -> Result<usize, Outcome>
    requires { Flagged tables.now flags.now ledger.now used × Under held.now flags.now }
    ensures { (bound : ℕ) → ChosenAs result (Free bound) picks.now firings tables.now flags.now held.now ledger.now used }
{
    if picks.len() == 0 {
        return first_free(tables, flags, held, ledger, used);
    }
    let e = store_flags::Free::new(flags, held).count();
    if e == 0 {
        return Err(ending::ending(tables, ledger, used));
    }
    let number = number_of(pick::pick_at(picks, firings), e);
    Ok(free_at(flags, held, number))
}

// The choice of a turn: the place of an enabled activity, unless the run is at its end. An order that holds nothing back asks for no
// flags of held ones. A closure in place of the order would be no plainer:
// the loop and the laws ask the order whether it holds anything back.
pub fn choose(
    order: Order,
    source: &[u8],
    firings: usize,
    tables: &Tables,
    store: &Store,
    held: Option<&Flags>,
    ledger: &[u8],
    used: usize,
) -> Result<usize, Outcome>
    requires { Matching tables.now store.now.links store.now.flags ledger.now used × HeldBeside order store.now.flags (option_copied held) }
    ensures { ChosenAs result order source.now firings tables.now store.now.flags (unwrap_or (option_copied held.entry) []) ledger.now used }
{
    match order {
        Order::Oldest => oldest(tables, &store.flags, ledger, used),
        Order::Picks => by_pick(tables, &store.flags, ledger, used, source, firings),
        Order::Log => by_record(tables, store, ledger, used, source, firings),
        Order::Free(_) => by_free(
            tables,
            &store.flags,
            held.unwrap(),
            ledger,
            used,
            source,
            firings,
        ),
    }
}

// Without picks the first is taken each time, and needs no number.
fn order_of(picks: &[u8]) -> Order
    ensures { ByPicks result picks.now × Plain result }
{
    if picks.len() == 0 {
        Order::Oldest
    } else {
        Order::Picks
    }
}

// The order of a run by picks. A bound of 0 is none, as C lends it; from here on the order says whether there is one.
pub fn order_under(picks: &[u8], bound: usize) -> Order
    ensures { ByBound result picks.now bound }
{
    if bound != 0 {
        return Order::Free(bound);
    }
    order_of(picks)
}
