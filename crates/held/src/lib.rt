// Which of the enabled activities a bound holds back (02, R-9): a second set of flags beside those of the enabled, made right after
// each firing. What a record is to a NEXT activity does not come back: a token that is spent, or a result that is live, stays so, and
// no token changes its tag. So the search for one that holds an activity back goes on where the last one ended, and passes over
// records that none needs to look at again.
#![tactic(auto)]

ghost use Rattle.std.specs.Prelude.{ℕ, ◌+◌, ◌/◌, ◌≤◌, ◌<◌, ◌≡◌, true, false, length, get_or, set, replicate, eqb, leb};
ghost use Rattle.record.specs.GraphRecords.{graph_of};
ghost use Rattle.record.specs.TokensAndTags.{tokens, token_at};
ghost use Rattle.record.specs.Widths.{token_width};
ghost use Rattle.machine.specs.Machine.{on_option};
ghost use Rattle.rules.specs.Check.{instruction_at};
ghost use Rattle.rules.specs.Held.{stands_in};
ghost use Rattle.store_flags.specs.Flags.{Under, FlagList};
ghost use Rattle.store_flags.specs.Marks.{bit};
ghost use Rattle.abstraction.specs.Tables.{Arities};
ghost use Rattle.held.specs.Searching.{later_of, Skips, PendingFrom, HolderFrom, Skipped, MarkedPast};
ghost use Rattle.held.specs.Deciding.{is_late_next, held_at, ClearFrom, Listed, NewListed, Dropped, FlagsUnspent, HeldDecided, AllStanding, LookedAt, Carried, HeldKept, NoneNew, HeldStill, AllStill};

use record::codec::Decode;
use record::tag::{Path, Tag};
use record::token::Token;
use record::{instruction, token};
use std::marker::Model;
use store_enabled::Tables;
use store_flags::Flags;

// The code of NEXT. A number: the definition `held_in` of the rules goes by the code.
const NEXT: u8 = 7;

// Whether a tag stands in a path, or in one entered from there, at an iteration of m - k or less: LEAVE finds one caller
// after the other.
fn stands_old(tag: Tag, path: Path, bound: usize, m: usize) -> bool
    requires { bound < 65536 }
    ensures { result ≡ on_option (stands_in path tag) false (λ j. leb (j + bound) m) }
{
    let mut at = tag;
    // No `for`: each iteration goes to a caller, and the path alone says how many there are.
    while at.path != path {
        let Some(caller) = at.leave() else {
            return false;
        };
        at = caller.tag;
    }
    at.iteration as usize + bound <= m
}

fn is_next(graph: &[u8], i: u16) -> bool
    ensures { result ≡ eqb (instruction_at (graph_of graph.now) i).code 7 }
{
    let at = i as usize;
    at < graph.len() / instruction::WIDTH && graph[at * instruction::WIDTH] == NEXT
}

// Flag i is raised or lowered, whichever it was.
fn put(held: &mut Flags, i: usize, on: bool)
    requires { i < 2048 }
    ensures held_after { held.new ≡ set held.old i (bit on) }
    ensures list { FlagList held.new }
{
    if held.is_raised(i) {
        if !on {
            held.lower(i);
        }
    } else if on {
        held.raise(i);
    }
}

// ---- marks: two of each of 2,048 records

// Clauses see one list, the second marks behind the first. No array of pairs: the two marks of a record are never read together.
// The fields are public, since any numbers make marks: a caller can make, keep and copy them.
#[derive(Drop)]
pub struct Marks {
    // From which record on one may hold back the activity at this one.
    pub holders: [u16; 2048],
    // The records from this one on, and below the mark, no search need look at.
    pub skips: [u16; 2048],
}

impl Model for Marks {
    ghost use Rattle.std.specs.Prelude.{List, ℕ, ◌++◌};

    ghost Value = { List ℕ };

    ghost view = { λ m. m.holders ++ m.skips };
}

impl Marks {
    // With nothing looked at.
    pub fn new() -> Marks
        ensures { result ≡ replicate 4096 0 }
    {
        Marks {
            holders: [0; 2048],
            skips: [0; 2048],
        }
    }

    fn holder(&self, i: usize) -> usize
        requires { i < 2048 }
        ensures { result ≡ get_or self.now i 0 }
    {
        self.holders[i] as usize
    }

    fn skip(&self, i: usize) -> usize
        requires { i < 2048 }
        ensures { result ≡ get_or self.now (i + 2048) 0 }
    {
        self.skips[i] as usize
    }

    fn set_holder(&mut self, i: usize, n: usize)
        requires { (i < 2048) × (n ≤ 2048) }
        ensures marks_after { self.new ≡ set self.old i n }
        ensures size { length self.new ≡ 4096 }
    {
        self.holders[i] = n as u16;
    }

    fn set_skip(&mut self, i: usize, n: usize)
        requires { (i < 2048) × (n ≤ 2048) }
        ensures marks_after { self.new ≡ set self.old (i + 2048) n }
        ensures size { length self.new ≡ 4096 }
    {
        self.skips[i] = n as u16;
    }
}

// ---- the search

// What comes behind record `at`, if those below `skip` are passed over.
fn later(at: usize, skip: usize) -> usize
    requires { at < 2048 }
    ensures { result ≡ later_of at skip }
{
    skip.max(at + 1)
}

// The first record from `from` on that a completed run does not leave, or `used`. No Option: the next search goes on from here, be it
// a record or the end.
// The caller lends the ledger's bytes (the C interface), so the number of its tokens goes beside them.
fn next_pending(tables: &Tables, ledger: &[u8], used: usize, marks: &Marks, from: usize) -> usize
    requires { (used ≤ length ledger.now / token_width) × (used ≤ 2048) × (from ≤ used) × Skips tables.now ledger.now used marks.now }
    ensures { PendingFrom tables.now ledger.now used from result }
{
    let mut at = from;
    // No `for`: an iteration passes all the records that are marked as proper.
    while at < used {
        if !ending::proper_at(tables, ledger, at) {
            return at;
        }
        at = later(at, marks.skip(at));
    }
    at
}

fn old_at(ledger: &[u8], i: usize, path: Path, bound: usize, m: usize) -> bool
    requires { (i < length ledger.now / token_width) × (bound < 65536) }
    ensures { result ≡ on_option (stands_in path (token_at ledger.now i).tag) false (λ j. leb (j + bound) m) }
{
    let t = Token::read(ledger, i);
    let tag = t.tag;
    stands_old(tag, path, bound, m)
}

// The first record from `from` on that holds back what would make iteration m of a path, or `used`.
fn first_holder(
    tables: &Tables,
    ledger: &[u8],
    used: usize,
    marks: &mut Marks,
    path: Path,
    bound: usize,
    m: usize,
    from: usize,
) -> usize
    requires { (used ≤ length ledger.now / token_width) × (used ≤ 2048) × (bound < 65536) × (from ≤ used) × Skips tables.now ledger.now used marks.old }
    ensures holder_from { HolderFrom tables.now ledger.now used path bound m from result }
    ensures skipped { Skipped tables.now ledger.now used marks.old marks.new }
{
    let mut at = from;
    // No `for`: an iteration passes all the records before the one that it finds.
    while at < used {
        let pending = next_pending(tables, ledger, used, marks, at);
        marks.set_skip(at, pending);
        if pending == used {
            return used;
        }
        if old_at(ledger, pending, path, bound, m) {
            return pending;
        }
        at = pending + 1;
    }
    used
}

// ---- activities

// Whether the activity at the place of record i is enabled and held back. That the tables are the graph's is said in the clauses: the
// graph's bytes are the caller's.
fn holds_now(
    graph: &[u8],
    tables: &Tables,
    flags: &Flags,
    ledger: &[u8],
    used: usize,
    bound: usize,
    marks: &mut Marks,
    i: usize,
) -> bool
    requires { Arities (graph_of graph.now) tables.now
        × (i < used)
        × (used ≤ length ledger.now / token_width)
        × (used ≤ 2048)
        × (0 < bound)
        × (bound < 65536)
        × MarkedPast tables.now ledger.now bound used marks.old }
    ensures value { result ≡ held_at (graph_of graph.now) bound flags.now ledger.now used i }
    ensures marked_past { MarkedPast tables.now ledger.now bound used marks.new }
    ensures looked_at { LookedAt (graph_of graph.now) ledger.now bound used i result marks.old marks.new }
{
    if !flags.is_raised(i) {
        return false;
    }
    let t = Token::read(ledger, i);
    let tag = t.tag;
    let path = tag.path;
    if !is_next(graph, tag.instruction) {
        return false;
    }
    let m = tag.iteration as usize + 1;
    let from = marks.holder(i);
    let holder = first_holder(tables, ledger, used, marks, path, bound, m, from);
    marks.set_holder(i, holder);
    holder < used
}

// The activities of the records at NEXT are looked at, each in turn.
fn decide(
    graph: &[u8],
    tables: &Tables,
    flags: &Flags,
    ledger: &[u8],
    used: usize,
    bound: usize,
    nexts: &Flags,
    held: &mut Flags,
    marks: &mut Marks,
)
    requires { Arities (graph_of graph.now) tables.now
        × (used ≤ length ledger.now / token_width)
        × (used ≤ 2048)
        × (0 < bound)
        × (bound < 65536)
        × ClearFrom used nexts.now
        × Under held.old nexts.now
        × MarkedPast tables.now ledger.now bound used marks.old
        × Listed (graph_of graph.now) bound flags.now nexts.now ledger.now used
        × AllStanding (graph_of graph.now) ledger.now bound used held.old marks.old }
    ensures held_decided { HeldDecided (graph_of graph.now) bound flags.now held.new ledger.now used }
    ensures under { Under held.new nexts.now × MarkedPast tables.now ledger.now bound used marks.new }
    ensures all_standing { AllStanding (graph_of graph.now) ledger.now bound used held.new marks.new }
{
    let n = nexts.count();
    for k in 0..n {
        let i = nexts.select(k);
        let on = holds_now(graph, tables, flags, ledger, used, bound, marks, i);
        put(held, i, on);
    }
}

// Whether a record is at NEXT, where the bound may hold it back: no iteration is k before one below k.
fn at_next(graph: &[u8], ledger: &[u8], bound: usize, i: usize) -> bool
    requires { i < length ledger.now / token_width }
    ensures { result ≡ is_late_next (graph_of graph.now) bound (token_at ledger.now i) }
{
    let t = Token::read(ledger, i);
    let tag = t.tag;
    is_next(graph, tag.instruction) && bound <= tag.iteration as usize + 1
}

// A record that is not listed is, if it has to be.
fn list_one(graph: &[u8], ledger: &[u8], bound: usize, i: usize, nexts: &mut Flags)
    requires { (i < length ledger.now / token_width) × (i < 2048) × (get_or nexts.old i 0 ≡ 0) }
    ensures nexts_after { nexts.new ≡ set nexts.old i (bit (is_late_next (graph_of graph.now) bound (token_at ledger.now i))) }
    ensures at { get_or nexts.new i 0 ≡ bit (is_late_next (graph_of graph.now) bound (token_at ledger.now i)) }
{
    if at_next(graph, ledger, bound, i) {
        nexts.raise(i);
    }
}

// The records that came since, from `used` on: those at NEXT are listed.
fn list_new(graph: &[u8], ledger: &[u8], used: usize, n: usize, bound: usize, nexts: &mut Flags)
    requires { (used ≤ n) × (n ≤ length ledger.now / token_width) × (n ≤ 2048) × ClearFrom used nexts.old }
    ensures { NewListed (graph_of graph.now) bound ledger.now used n nexts.old nexts.new }
{
    for i in used..n {
        list_one(graph, ledger, bound, i, nexts);
    }
}

// A record below n that is spent is listed no more.
fn drop_spent(ledger: &[u8], n: usize, place: usize, nexts: &mut Flags, held: &mut Flags)
    requires { (n ≤ length ledger.now / token_width) × (n ≤ 2048) }
    ensures { Dropped ledger.now place nexts.old held.old nexts.new held.new }
{
    if n <= place {
        return;
    }
    if ledger[place * token::WIDTH + token::STATE] != 1 {
        return;
    }
    put(nexts, place, false);
    put(held, place, false);
}

// ---- a firing after which all is as before

// Whether none of the records that came since has to be listed.
fn none_new(graph: &[u8], ledger: &[u8], used: usize, n: usize, bound: usize) -> bool
    requires { n ≤ length ledger.now / token_width }
    ensures { result ≡ true → NoneNew (graph_of graph.now) bound ledger.now used n }
{
    for i in used..n {
        if at_next(graph, ledger, bound, i) {
            return false;
        }
    }
    true
}

// Whether an activity is enabled, and the record that its search stands at is still to hold it back.
fn holds_still(tables: &Tables, flags: &Flags, ledger: &[u8], marks: &Marks, i: usize) -> bool
    requires { (i < 2048) × (get_or marks.now i 0 < length ledger.now / token_width) }
    ensures { result ≡ true → HeldStill tables.now flags.now ledger.now marks.now i }
{
    flags.is_raised(i) && !ending::proper_at(tables, ledger, marks.holder(i))
}

// ---- what is kept from firing to firing

// The records at NEXT that are not spent, those of them that are held back, and how far the searches came.
#[derive(Drop)]
pub struct Holds {
    pub nexts: Flags,
    pub held: Flags,
    pub marks: Marks,
}

impl Holds {
    // Before the first firing.
    pub fn new() -> Holds
        ensures { (result.nexts ≡ replicate 2048 0) × (result.held ≡ replicate 2048 0) × (result.marks ≡ replicate 4096 0) }
    {
        Holds {
            nexts: Flags::new(),
            held: Flags::new(),
            marks: Marks::new(),
        }
    }

    // Whether all that are listed were held, and are.
    fn all_still(&self, tables: &Tables, flags: &Flags, ledger: &[u8]) -> bool
        requires { (i : ℕ) → get_or self.now.held i 0 ≡ 1 → get_or self.now.marks i 0 < length ledger.now / token_width }
        ensures { result ≡ true
            → AllStill tables.now flags.now ledger.now self.now.nexts self.now.held self.now.marks }
    {
        let n = self.nexts.count();
        for k in 0..n {
            let i = self.nexts.select(k);
            if !self.held.is_raised(i) {
                return false;
            }
            if !holds_still(tables, flags, ledger, &self.marks, i) {
                return false;
            }
        }
        true
    }

    // Whether a firing that left n tokens where there were `used` leaves the held activities as they were. Most do: nothing new is at
    // NEXT, and none waits there but those that are held by tokens at which their searches stand.
    pub fn calm(
        &self,
        graph: &[u8],
        tables: &Tables,
        flags: &Flags,
        ledger: &[u8],
        used: usize,
        n: usize,
        bound: usize,
    ) -> bool
        requires { Arities (graph_of graph.now) tables.now
            × (used ≤ n)
            × (n ≤ length ledger.now / token_width)
            × (n ≤ 2048)
            × (0 < bound)
            × (bound < 65536)
            × FlagsUnspent flags.now ledger.now n
            × Carried (graph_of graph.now) tables.now ledger.now bound used self.now.nexts self.now.held self.now.marks }
        ensures { result ≡ true
            → HeldKept (graph_of graph.now) tables.now flags.now ledger.now bound n self.now.nexts self.now.held self.now.marks }
    {
        if !none_new(graph, ledger, used, n, bound) {
            return false;
        }
        if self.nexts.is_empty() {
            return true;
        }
        self.all_still(tables, flags, ledger)
    }

    // After a firing of the activity at a place, which left n tokens where there were `used`: the flags of the held activities are right
    // again. Before the first firing all n are new, and any place will do: only a spent record is dropped.
    pub fn follow(
        &mut self,
        graph: &[u8],
        tables: &Tables,
        flags: &Flags,
        ledger: &[u8],
        used: usize,
        n: usize,
        place: usize,
        bound: usize,
    )
        requires { Arities (graph_of graph.now) tables.now
            × (used ≤ n)
            × (n ≤ length ledger.now / token_width)
            × (n ≤ 2048)
            × (0 < bound)
            × (bound < 65536)
            × FlagsUnspent flags.now ledger.now n
            × Carried (graph_of graph.now) tables.now ledger.now bound used self.old.nexts self.old.held self.old.marks }
        ensures { HeldKept (graph_of graph.now) tables.now flags.now ledger.now bound n self.new.nexts self.new.held self.new.marks }
    {
        list_new(graph, ledger, used, n, bound, &mut self.nexts);
        drop_spent(ledger, n, place, &mut self.nexts, &mut self.held);
        decide(
            graph,
            tables,
            flags,
            ledger,
            n,
            bound,
            &self.nexts,
            &mut self.held,
            &mut self.marks,
        );
    }
}
