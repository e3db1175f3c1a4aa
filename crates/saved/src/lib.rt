// The check of a saved state (02, R-13), and its matching store: a pass over its tokens and one over its cells. All conditions give
// one answer, so they may be asked in any order.
#![tactic(auto)]

ghost use Rattle.std.specs.Prelude.{ℕ, ◌*◌, ◌/◌, ◌%◌, ◌≤◌, ◌<◌, ◌≡◌, true, List, length, take, drop, replicate, eqb, ltb};
ghost use Rattle.record.specs.declared.instruction.Instruction.{Instruction};
ghost use Rattle.record.specs.GraphRecords.{graph_of};
ghost use Rattle.record.specs.TokensAndTags.{encode_token, decode_token, tokens, token_at, TokenFits, is_spent_record};
ghost use Rattle.record.specs.Calls.{most_levels};
ghost use Rattle.record.specs.Cells as Cells;
ghost use Rattle.record.specs.Widths.{token_width, cell_width};
ghost use Rattle.machine.specs.Saved.{all_up_to};
ghost use Rattle.abstraction.specs.Tables.{Arities};
ghost use Rattle.rules.specs.Check.{operands_at};
ghost use Rattle.rules.specs.Saved.{token_allowed, cell_allowed, path_made, state_taken};
ghost use Rattle.store_chains.specs.Search.{FoundWithin};
ghost use Rattle.store_enabled.specs.Store.{Known};
ghost use Rattle.store.specs.Matching.{Matching};
ghost use Rattle.fire.specs.Running.{Prepared, Running};
ghost use Rattle.saved.specs.Passes.{EnteredSites, content_allowed, arrives_at, spent_found, spent_of_two, closes_at, first_spent, enters_all, is_waiting_record, CellBytes, cell_right};

use check_fields::arc;
use check_fields::site::Entered;
use record::cell::Cell;
use record::codec::Decode;
use record::instruction::Instruction;
use record::operation::OperandCounts;
use record::tag::Tag;
use record::token::{Content, Token};
use record::{cell, instruction, token};
use store_enabled::{Store, Tables};

// The most levels of calls.
const LEVELS: usize = 8;

// The sites that an ENTER has.
fn find_sites(graph: &[u8]) -> Entered
    ensures { EnteredSites (graph_of graph.now) result }
{
    let mut sites = Entered::none();
    for i in 0..graph.len() / instruction::WIDTH {
        sites.note(Instruction::read(graph, i));
    }
    sites
}

// Whether a path is made of sites that have an ENTER, with its levels unbroken: LEAVE finds one after the other.
fn path_made(sites: &Entered, tag: Tag) -> bool
    ensures { (g : List Instruction) → EnteredSites g sites.now → result ≡ path_made g most_levels tag }
{
    let mut at = tag;
    for _ in 0..LEVELS {
        let Some(caller) = at.leave() else {
            return true;
        };
        if !sites.has(caller.site) {
            return false;
        }
        at = caller.tag;
    }
    let path = at.path;
    path.is_root()
}

// Whether a spent token was an operand, and a deferred one names a cell of the store.
fn content_allowed(tables: &Tables, count: usize, t: Token) -> bool
    ensures { result ≡ content_allowed tables.now count t }
{
    let tag = t.tag;
    let content = t.content;
    match content {
        Content::Live(_) => true,
        Content::Spent(_) => (t.port as u16) < store_enabled::arity(tables, tag),
        Content::Deferred(c) => (c as usize) < count,
    }
}

// Whether the port of a token is one of its instruction's. Where operands are waited for, the tables have their number. That
// they are the graph's is said in the clauses: the graph's bytes are the caller's.
fn port_allowed(graph: &[u8], tables: &Tables, t: Token) -> bool
    requires { Arities (graph_of graph.now) tables.now }
    ensures { result ≡ ltb t.port (operands_at (graph_of graph.now) t.tag.instruction) }
{
    let tag = t.tag;
    let operands = store_enabled::arity(tables, tag);
    if operands == 0 {
        let counts = OperandCounts::new();
        return t.port < arc::operands_at(&counts, graph, tag.instruction);
    }
    (t.port as u16) < operands
}

// Whether fields and state of the record that s starts with are allowed; then its bytes are those of its token.
fn token_allowed(graph: &[u8], tables: &Tables, s: &[u8]) -> bool
    requires { (token_width ≤ length s.now) × Arities (graph_of graph.now) tables.now }
    ensures value { result ≡ token_allowed (graph_of graph.now) s.now }
    ensures s_value { result ≡ true → (encode_token (decode_token s.now) ≡ take token_width s.now) × TokenFits (decode_token s.now) }
{
    port_allowed(graph, tables, Token::decode(s)) && token::state_allowed(s)
}

// Whether record i can arrive in the matching store of those before it.
fn arrives(
    graph: &[u8],
    tables: &Tables,
    sites: &Entered,
    store: &Store,
    ledger: &[u8],
    count: usize,
    i: usize,
) -> bool
    requires { (i < length ledger.now / token_width) × Known store.now.links ledger.now i × EnteredSites (graph_of graph.now) sites.now × Arities (graph_of graph.now) tables.now }
    ensures value { result ≡ arrives_at (graph_of graph.now) tables.now ledger.now count i }
    ensures i_value { result ≡ true → (encode_token (token_at ledger.now i) ≡ take token_width (drop (i * token_width) ledger.now)) × TokenFits (token_at ledger.now i) }
{
    if !token_allowed(graph, tables, buffer::row_at(ledger, token::WIDTH, i)) {
        return false;
    }
    let t = Token::read(ledger, i);
    let tag = t.tag;
    if !path_made(sites, tag) {
        return false;
    }
    if !content_allowed(tables, count, t) {
        return false;
    }
    store::find(&store.links, ledger, i, tag, t.port).is_none()
}

fn is_spent(content: Content) -> bool
    ensures { result ≡ is_spent_record content }
{
    matches!(content, Content::Spent(_))
}

// The caller lends the ledger's bytes (the C interface), so the number of its tokens goes beside them.
fn spent_found(ledger: &[u8], used: usize, f: Option<usize>) -> bool
    requires { FoundWithin f used × (used ≤ length ledger.now / token_width) }
    ensures { result ≡ spent_found (token_at ledger.now) f }
{
    f.is_some_and(|j| {
        let t = Token::read(ledger, j);
        is_spent(t.content)
    })
}

// Whether t is a spent operand of a tag that waits for two.
fn spent_of_two(tables: &Tables, t: Token) -> bool
    ensures { (ledger : List ℕ) (i : ℕ) → t ≡ token_at ledger i → result ≡ spent_of_two tables.now ledger i }
{
    let tag = t.tag;
    let content = t.content;
    is_spent(content) && store_enabled::arity(tables, tag) == 2
}

// Whether record i, which is t, is such an operand and the other one came before it, spent too.
fn closes(tables: &Tables, store: &Store, ledger: &[u8], i: usize, t: Token) -> bool
    requires { (t ≡ token_at ledger.now i) × (t.port < 2) × Known store.now.links ledger.now i }
    ensures { result ≡ closes_at tables.now ledger.now i }
{
    if !spent_of_two(tables, t) {
        return false;
    }
    let tag = t.tag;
    spent_found(
        ledger,
        i,
        store::find(&store.links, ledger, i, tag, 1 - t.port),
    )
}

// Whether t is a spent token on port 0: it stands for its tag's firing.
fn first_spent(t: Token) -> bool
    ensures { (ledger : List ℕ) (i : ℕ) → t ≡ token_at ledger i → result ≡ first_spent ledger i }
{
    let content = t.content;
    t.port == 0 && is_spent(content)
}

// The pass over the tokens: each arrives in the matching store of those before it. Operands are spent together if half of those
// that are spent, of two, close a pair.
fn enter(
    graph: &[u8],
    tables: &Tables,
    sites: &Entered,
    store: &mut Store,
    ledger: &[u8],
    count: usize,
    firings: usize,
    used: usize,
) -> bool
    requires { Matching tables.now store.old.links store.old.flags ledger.now 0
        × (used ≤ length ledger.now / token_width) × (length ledger.now / token_width ≤ 2048) × (count ≤ 1024)
        × EnteredSites (graph_of graph.now) sites.now × Arities (graph_of graph.now) tables.now }
    ensures value { result ≡ enters_all (graph_of graph.now) tables.now ledger.now count firings used }
    ensures cases { result ≡ true → Matching tables.now store.new.links store.new.flags ledger.now used }
{
    let mut fired = 0;
    let mut of_two = 0;
    let mut closed = 0;
    for i in 0..used {
        if !arrives(graph, tables, sites, store, ledger, count, i) {
            return false;
        }
        let t = Token::read(ledger, i);
        fired += usize::from(first_spent(t));
        of_two += usize::from(spent_of_two(tables, t));
        closed += usize::from(closes(tables, store, ledger, i, t));
        let tag = t.tag;
        let Some(slot) = store::seek(&store.links, ledger, i, tag, t.port) else {
            // `arrives` found none there.
            return false;
        };
        store::enter(tables, store, ledger, i, t, slot);
    }
    closed * 2 == of_two && fired == firings
}

fn is_waiting(cell: Cell) -> bool
    ensures { result ≡ is_waiting_record cell }
{
    matches!(cell, Cell::Waiting)
}

// Whether state and value of the cell record that s starts with are allowed; then its bytes are those of its cell.
fn cell_allowed(s: &[u8]) -> bool
    requires { cell_width ≤ length s.now }
    ensures value { result ≡ cell_allowed s.now }
    ensures s_value { result ≡ true → (Cells.encode_cell (Cells.decode_cell s.now) ≡ take cell_width s.now) × Cells.CellFits (Cells.decode_cell s.now) }
{
    cell::state_allowed(s) && cell::zero_until_present(s)
}

// Whether cell c is right: it is waiting exactly where a token is deferred on it.
fn cell_right(store: &Store, cells: &[u8], c: usize) -> bool
    requires { (c < length cells.now / cell_width) × (c < 1024) }
    ensures by_index { (tables flags ledger : List ℕ) (used : ℕ) → Matching tables store.now.links flags ledger used → result ≡ cell_right (tokens used ledger) cells.now c }
    ensures cell_bytes { result ≡ true → CellBytes cells.now c }
{
    if !cell_allowed(buffer::row_at(cells, cell::WIDTH, c)) {
        return false;
    }
    let x = Cell::read(cells, c);
    store::any_deferred(&store.links, c) == is_waiting(x)
}

// The pass over the cells.
fn cells_right(store: &Store, cells: &[u8]) -> bool
    requires { length cells.now / cell_width ≤ 1024 }
    ensures by_index { (tables flags ledger : List ℕ) (used : ℕ) → Matching tables store.now.links flags ledger used
        → result ≡ all_up_to (cell_right (tokens used ledger) cells.now) (length cells.now / cell_width) }
    ensures cell_bytes { result ≡ true → (c : ℕ) → c < length cells.now / cell_width → CellBytes cells.now c }
{
    for c in 0..cells.len() / cell::WIDTH {
        if !cell_right(store, cells, c) {
            return false;
        }
    }
    true
}

// Whether a saved state is taken. If it is, the arrays, which are lent empty, are its matching store, and a run can go on from there.
pub fn take(
    graph: &[u8],
    tables: &Tables,
    store: &mut Store,
    ledger: &[u8],
    cells: &[u8],
    firings: usize,
    used: usize,
) -> bool
    requires { Prepared graph.now tables.now
        × (length ledger.now / token_width ≤ 2048) × (length cells.now % cell_width ≡ 0) × (length cells.now / cell_width ≤ 1024)
        × (store.old.links ≡ replicate 11264 0) × (store.old.flags ≡ replicate 2048 0) }
    ensures value { result ≡ state_taken graph.now ledger.now cells.now firings used }
    ensures running { result ≡ true → Running (graph_of graph.now) tables.now store.new.links store.new.flags ledger.now cells.now used }
{
    if ledger.len() / token::WIDTH < used {
        return false;
    }
    let sites = find_sites(graph);
    let count = cells.len() / cell::WIDTH;
    if !enter(graph, tables, &sites, store, ledger, count, firings, used) {
        return false;
    }
    cells_right(store, cells)
}
