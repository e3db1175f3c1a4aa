// Profiles for the plotter (02, R-1): a run by ideal steps. In a step every activity that is enabled at its start fires, in ledger
// order, and each whole step leaves a record.
#![tactic(auto)]

ghost use Rattle.std.specs.Prelude.{ℕ, ◌/◌, ◌<◌, ◌≤◌, ◌≡◌, length, Ok};
ghost use Rattle.buffer.specs.Rows.{put_row};
ghost use Rattle.record.specs.GraphRecords.{graph_of};
ghost use Rattle.record.specs.TokensAndTags.{tokens, token_at};
ghost use Rattle.record.specs.Widths.{token_width, cell_width, step_width};
ghost use Rattle.machine.specs.Steps.{profile as Machine·profile};
ghost use Rattle.rules.specs.declared.answer.Refusal.TheVariants.{ProfileFull};
ghost use Rattle.rules.specs.Run.{first_state};
ghost use Rattle.rules.specs.Profile.{check_profile_stores, check_profile, encode_step};
ghost use Rattle.rules.specs.Runs.{lent_to_profile, left_by_profile, ProfiledOn};
ghost use Rattle.store_flags.specs.Flags.{places};
ghost use Rattle.store_enabled.specs.Enabled.{arity_of, enabled_places};
ghost use Rattle.fire.specs.Running.{Prepared, Running};
ghost use Rattle.start.specs.Begun.{machine_lent};
ghost use Rattle.profile.specs.Steps.{OneOrTwo, PlacesIn, unspent_at, profile_from, LastAs, FiredAs, StepDone, ProfiledTo};

use checks::lent::Lent;
use checks::stores::Stores;
use fire::Plain;
use record::codec::Decode;
use record::token::Token;
use rules::answer::{Answer, Fault, Outcome, Profiled, Refusal};
use store_enabled::{Store, Tables};
use store_flags::Flags;

// The bytes of a step's record.
pub const WIDTH: usize = 4;

// An ideal step all of whose activities fired: their number, the tokens that it left, and those of them that are live or deferred.
#[derive(Clone, Copy)]
pub struct Whole {
    pub firings: usize,
    pub tokens: usize,
    pub unspent: usize,
}

// A step in which the profile is at its end: the firings of the step that were done, and the tokens then.
#[derive(Clone, Copy)]
pub struct Ended {
    pub outcome: Outcome,
    pub firings: usize,
    pub tokens: usize,
}

// How far the activities of a step came, fired in turn: all of them, or up to the one that was refused; with the tokens then, and the
// operands that they spent.
#[derive(Clone, Copy)]
pub struct Progress {
    pub outcome: Outcome,
    pub firings: usize,
    pub tokens: usize,
    pub spent: usize,
}

// 7: a profile in whole records, and the stores of a run without picks, by their lengths in bytes.
fn check_stores(inputs: usize, ledger: usize, cells: usize, profile: usize) -> Result<(), Fault>
    ensures { result ≡ check_profile_stores inputs ledger cells profile }
{
    let stores = Stores {
        inputs,
        picks: 0,
        ledger,
        cells,
    };
    stores.check()?;
    if profile % WIDTH == 0 {
        Ok(())
    } else {
        Err(Refusal::BadStore.at(0))
    }
}

// What is refused before the inputs are written; ledger, cells and profile by their lengths in bytes.
fn check(
    graph: &[u8],
    arrays: &[u8],
    inputs: &[u8],
    ledger: usize,
    cells: usize,
    profile: usize,
) -> Result<(), Fault>
    ensures { result ≡ check_profile graph.now arrays.now inputs.now ledger cells profile }
{
    let of_stores = check_stores(inputs.len(), ledger, cells, profile);
    checks::check_with(graph, arrays, &of_stores, inputs, ledger, cells)
}

// The bytes of a step's record.
fn bytes_of(firings: usize, unspent: usize) -> [u8; WIDTH]
    ensures { result ≡ encode_step (record { firings = firings; unspent = unspent }) }
{
    let [a, b, ..] = firings.to_le_bytes();
    let [c, d, ..] = unspent.to_le_bytes();
    [a, b, c, d]
}

// Writes a step's record as record i of a profile; every other byte stays.
fn put_record(profile: &mut [u8], i: usize, firings: usize, unspent: usize)
    requires { i < length profile.old / step_width }
    ensures { profile.new ≡ put_row step_width profile.old i (encode_step (record { firings = firings; unspent = unspent })) }
{
    let bytes = bytes_of(firings, unspent);
    buffer::put_row(profile, WIDTH, i, &bytes);
}

// How many operands the activity has whose place this is. It is enabled, so they are one or two.
fn operands_at(tables: &Tables, ledger: &[u8], place: usize) -> usize
    requires { (place < length ledger.now / token_width) × OneOrTwo (arity_of tables.now (token_at ledger.now place).tag) }
    ensures { result ≡ arity_of tables.now (token_at ledger.now place).tag }
{
    let t = Token::read(ledger, place);
    let tag = t.tag;
    if store_enabled::arity(tables, tag) == 2 {
        2
    } else {
        1
    }
}

// How a profile ends that has no record left: 18, unless nothing is enabled.
fn no_record(tables: &Tables, flags: &Flags, ledger: &[u8], used: usize) -> Outcome
    requires { (places flags.now ≡ enabled_places tables.now (tokens used ledger.now)) × (used ≤ length ledger.now / token_width) }
    ensures { LastAs result tables.now (tokens used ledger.now) }
{
    if store::enabled_count(flags) == 0 {
        ending::ending(tables, ledger, used)
    } else {
        Outcome::Refused(Refusal::ProfileFull, 0)
    }
}

// Writes the places of so many enabled activities, which are all, in order. From the word of the first on, the flags of a word are
// taken away in turn.
fn put_places(flags: &Flags, count: usize, out: &mut [u16; 2048])
    requires { (length out.old ≡ 2048) × (count ≡ length (places flags.now)) × (0 < count) }
    ensures { PlacesIn count flags.now out.new }
{
    let mut b = store::enabled_at(flags, 0) / 64;
    let mut rest = flags.word_at(b);
    let mut k = 0;
    // No `for`: an iteration writes a place, or goes on to the next word.
    while k < count {
        if 0 < rest {
            let p = store_flags::lowest(rest);
            out[k] = (b * 64 + p) as u16;
            rest = store_flags::lowered(rest, p);
            k += 1;
        } else {
            b += 1;
            rest = flags.word_at(b);
        }
    }
}

// The activities that are due in a step, by their places: so many at the front of the array.
#[derive(Drop)]
struct Due {
    places: [u16; 2048],
    count: usize,
}

impl Due {
    // Writes those of the enabled activities, in order. One alone is found at once.
    fn fill(&mut self, flags: &Flags)
        ensures { PlacesIn self.new.count flags.now self.new.places }
    {
        let count = store::enabled_count(flags);
        self.count = count;
        if count == 1 {
            self.places[0] = store::enabled_at(flags, 0) as u16;
        } else if count != 0 {
            put_places(flags, count, &mut self.places);
        }
    }
}

// The activities that are due, which are all that are enabled, fire in turn. A ledger is lent by the caller, as bytes: `start` of its
// records are tokens.
fn in_turn(
    graph: &[u8],
    tables: &Tables,
    store: &mut Store,
    ledger: &mut [u8],
    cells: &mut [u8],
    due: &Due,
    start: usize,
) -> Progress
    requires { Prepared graph.now tables.now
        × Running (graph_of graph.now) tables.now store.old.links store.old.flags ledger.old cells.old start
        × PlacesIn due.now.count store.old.flags due.now.places
        × (0 < due.now.count) }
    ensures { FiredAs result.outcome (graph_of graph.now) tables.now store.new.links store.new.flags ledger.new
        cells.new result.firings result.tokens result.spent start ledger.old cells.old }
{
    let mut used = start;
    let mut spent = 0;
    for firings in 0..due.count {
        let place = due.places[firings] as usize;
        spent += operands_at(tables, ledger, place);
        let fired = fire::fire(graph, tables, &mut Plain, store, ledger, cells, used, place);
        match fired {
            Ok(n) => used = n,
            Err(r) => {
                return Progress {
                    outcome: Outcome::Refused(r, place),
                    firings,
                    tokens: used,
                    spent,
                }
            }
        }
    }
    Progress {
        outcome: Outcome::Spent,
        firings: due.count,
        tokens: used,
        spent,
    }
}

// An ideal step from a state of `start` tokens, of which `live` are live or deferred. What becomes enabled within it fires in
// the next step at the earliest, so the places are taken first.
fn step(
    graph: &[u8],
    tables: &Tables,
    store: &mut Store,
    ledger: &mut [u8],
    cells: &mut [u8],
    due: &mut Due,
    start: usize,
    live: usize,
) -> Result<Whole, Ended>
    requires { Prepared graph.now tables.now
        × Running (graph_of graph.now) tables.now store.old.links store.old.flags ledger.old cells.old start
        × (live ≡ unspent_at (graph_of graph.now) tables.now ledger.old cells.old start) }
    ensures { StepDone result (graph_of graph.now) tables.now store.new.links store.new.flags ledger.new
        cells.new start ledger.old cells.old }
{
    due.fill(&store.flags);
    if due.count == 0 {
        return Err(Ended {
            outcome: ending::ending(tables, ledger, start),
            firings: 0,
            tokens: start,
        });
    }
    let done = in_turn(graph, tables, store, ledger, cells, due, start);
    let outcome = done.outcome;
    let firings = done.firings;
    let tokens = done.tokens;
    match outcome {
        Outcome::Refused(_, _) => Err(Ended {
            outcome,
            firings,
            tokens,
        }),
        _ => Ok(Whole {
            firings,
            tokens,
            unspent: live + (tokens - start) - done.spent,
        }),
    }
}

// The answer, with the number of records.
fn answered(outcome: Outcome, firings: usize, tokens: usize, records: usize) -> Profiled
    ensures { result ≡ record { answer = record { outcome = outcome; firings = firings; tokens = tokens }; records = records } }
{
    let answer = Answer {
        outcome,
        firings,
        tokens,
    };
    Profiled { answer, records }
}

// A profile goes on from a state of `start` tokens, all live.
fn proceed(
    graph: &[u8],
    tables: &Tables,
    store: &mut Store,
    ledger: &mut [u8],
    cells: &mut [u8],
    profile: &mut [u8],
    start: usize,
) -> Profiled
    requires { Prepared graph.now tables.now
        × Running (graph_of graph.now) tables.now store.old.links store.old.flags ledger.old cells.old start
        × (start ≡ unspent_at (graph_of graph.now) tables.now ledger.old cells.old start) }
    ensures { ProfiledTo
        (profile_from (graph_of graph.now) (length profile.old / step_width) 0 tables.now ledger.old
        cells.old start) result ledger.old cells.old profile.old ledger.new cells.new
        profile.new }
{
    let room = profile.len() / WIDTH;
    let mut due = Due {
        places: [0; 2048],
        count: 0,
    };
    let mut used = start;
    let mut unspent = start;
    let mut firings = 0;
    for records in 0..room {
        let ended = step(graph, tables, store, ledger, cells, &mut due, used, unspent);
        match ended {
            Ok(whole) => {
                put_record(profile, records, whole.firings, whole.unspent);
                used = whole.tokens;
                unspent = whole.unspent;
                firings += whole.firings;
            }
            Err(end) => {
                return answered(end.outcome, firings + end.firings, end.tokens, records);
            }
        }
    }
    let outcome = no_record(tables, &store.flags, ledger, used);
    answered(outcome, firings, used, room)
}

// A profile that passed every check: all cells are set absent, the inputs go into the ledger, and it
// proceeds.
fn accepted(
    graph: &[u8],
    arrays: &[u8],
    inputs: &[u8],
    ledger: &mut [u8],
    cells: &mut [u8],
    profile: &mut [u8],
) -> Profiled
    requires { check_profile graph.now arrays.now inputs.now (length ledger.old) (length cells.old) (length profile.old) ≡ Ok tt }
    ensures { ProfiledTo
        (Machine·profile (machine_lent graph.now arrays.now ledger.old cells.old) ProfileFull
        (length profile.old / step_width) 0 (first_state inputs.now (length cells.old / cell_width))) result
        ledger.old cells.old profile.old ledger.new cells.new profile.new }
{
    let mut tables = [0u16; store_enabled::TABLES_LENGTH];
    let mut store = Store::new();
    let used = start::begin(
        graph,
        arrays,
        inputs,
        &mut tables,
        &mut store,
        ledger,
        cells,
    );
    proceed(graph, &tables, &mut store, ledger, cells, profile, used)
}

// A profile over lent bytes: its answer, and what it leaves in ledger, cells and profile, are what the rules give.
pub fn profile(
    graph: &[u8],
    arrays: &[u8],
    inputs: &[u8],
    ledger: &mut [u8],
    cells: &mut [u8],
    profile: &mut [u8],
) -> Profiled
    ensures { ProfiledOn graph.now arrays.now inputs.now
        (lent_to_profile ledger.old cells.old profile.old)
        (left_by_profile result ledger.new cells.new profile.new) }
{
    let checked = check(
        graph,
        arrays,
        inputs,
        ledger.len(),
        cells.len(),
        profile.len(),
    );
    match checked {
        Err(fault) => answered(Outcome::Refused(fault.refusal, fault.place), 0, 0, 0),
        Ok(()) => accepted(graph, arrays, inputs, ledger, cells, profile),
    }
}
