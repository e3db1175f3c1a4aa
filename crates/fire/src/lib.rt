// A firing, in the order of Memo 205-1: matching, instruction fetch, operation, new tags, output.
//
// Where document 01 parts from the memo:
// - Matching is asked for once an activity is picked. In the memo a token is matched when it arrives.
//   Operands stay in the ledger as spent tokens, so that their tags are never used again.
// - FETCH and STORE name their cell in the operation and reach it in the output of the same firing. In
//   the memo they send a request, a token of another kind, to the processing element that has the cell.
// - A FETCH that finds no value sends its tokens all the same: they wait in the ledger as deferred. The
//   memo keeps such a request in a section of its own and makes the token when the value is there.
// - STORE may send signals. The memo's I-STORE has no destination.
// - New tags name a context by its call path. In the memo each invocation is assigned a color.
// - A firing may be refused, and then writes nothing. The operation gives 10 and 12, the new tags give 13
//   to 17, the output 11, then 8 and 9. No instruction has both a refusal of the operation and one of the
//   new tags, and 11 is of STORE alone: so this is 01's order.
#![tactic(auto)]

ghost use Rattle.std.specs.Prelude.{ℕ, ◌<◌, ◌≡◌, true, ℤ};
ghost use Rattle.record.specs.GraphRecords.{graph_of};
ghost use Rattle.record.specs.TokensAndTags.{tokens, token_at};
ghost use Rattle.rules.specs.InstructionSet.{effect_in};
ghost use Rattle.abstraction.specs.Tables.{arrays_in};
ghost use Rattle.store_enabled.specs.Enabled.{leads_in};
ghost use Rattle.fire_effect.specs.Effects.{operated_of};
ghost use Rattle.fire.specs.Running.{Prepared, Running, Stepped};
ghost use Rattle.fire.specs.Operating.{Operated, After, WithRoom, Asks, Keeps, InTurn, AllSound, FitsAfter, asked_by, kept_by};
ghost use Rattle.fire.specs.Plain.{plain_in_turn, plain_sound};

use fire_effect::operate::Action;
use fire_effect::{operate, tags};
use fire_outputs::Places;
use record::cell;
use record::codec::Decode;
use record::instruction::Instruction;
use record::operation::Operation;
use record::token::Token;
use rules::answer::Refusal;
use store_enabled::{Store, Tables};

// An instruction set, by its operation, and what it keeps from one firing to the next. A run on values keeps nothing, a range run a table
// of ranges.
pub trait Operate {
    // What is kept goes with so many tokens in the ledger.
    ghost fits: { Self → (used : ℕ) → Type 0 };

    // What an operation gives, what is kept after it, and what the new tags are given for the operand on port 1.
    ghost operated: { Self → Operated };

    ghost after: { Self → After Self };

    ghost control: { Self → ℤ → ℤ };

    // What the instruction of an activity asks for, and what is kept after it.
    ghost asks: { Self → Asks };

    ghost keeps: { Self → Keeps Self };

    // What a SWITCH sends by, of the operand on port 1.
    fn control(&self, b: i32) -> i32
        ensures { result ≡ control self.now b };

    // What an operation gives, with its constant k and the operands a and b on ports 0 and 1.
    fn operate(
        &mut self,
        tables: &Tables,
        o: Operation,
        k: i32,
        cells: usize,
        a: i32,
        b: i32,
    ) -> Result<Action, Refusal>
        requires { WithRoom (fits self.old) }
        ensures gives { result ≡ operated self.old o (arrays_in tables.now) k cells a b }
        ensures keeps { self.new ≡ after self.old o (arrays_in tables.now) k cells a b };

    ghost in_turn: { (x : Self) → InTurn (operated x) (after x) (control x) (asks x) (keeps x) };

    ghost sound: { (x : Self) → AllSound (asks x) };

    ghost fits_after: { (x : Self) → FitsAfter fits x (asks x) (keeps x) };
}

// The operation of a run on values. It keeps nothing.
#[derive(Clone, Copy)]
pub struct Plain;

impl Operate for Plain {
    ghost fits = { λ x n. Unit {0} };

    ghost operated = { λ x. operated_of };

    ghost after = { λ x o table k cells a b. x };

    ghost control = { λ x b. b };

    ghost asks = { λ x. effect_in };

    ghost keeps = { λ x g table cells τ a b. x };

    fn control(&self, b: i32) -> i32 {
        b
    }

    fn operate(
        &mut self,
        tables: &Tables,
        o: Operation,
        k: i32,
        cells: usize,
        a: i32,
        b: i32,
    ) -> Result<Action, Refusal> {
        operate::operate(tables, o, k, cells, a, b)
    }

    ghost in_turn = { plain_in_turn };

    ghost sound = { λ x. plain_sound };

    ghost fits_after = { λ x graph passed tables links flags ledger cells links2 flags2 ledger2 cells2 used n τ now went h. tt };
}

// The enabled activity whose place this is fires, or is refused with ledger and cells as they were. Gives the
// number of tokens in the ledger after it. `Prepared` and `Running` are no invariants of a type: they speak of graph, ledger and cells,
// whose bytes are the caller's; so the number of the ledger's tokens goes beside it.
pub fn fire<O: Operate>(
    graph: &[u8],
    tables: &Tables,
    by: &mut O,
    store: &mut Store,
    ledger: &mut [u8],
    cells: &mut [u8],
    used: usize,
    place: usize,
) -> Result<usize, Refusal>
    requires { Prepared graph.now tables.now
        × Running (graph_of graph.now) tables.now store.old.links store.old.flags ledger.old cells.old used
        × (place < used)
        × (leads_in tables.now (tokens used ledger.old) place (token_at ledger.old place) ≡ true)
        × WithRoom (O.fits by.old) }
    ensures stepped { Stepped result (graph_of graph.now) (token_at ledger.old place).tag
        (asked_by (O.asks by.old) (graph_of graph.now) tables.now ledger.old cells.old used
        (token_at ledger.old place).tag) tables.now store.new.links store.new.flags ledger.new
        cells.new used ledger.old cells.old }
    ensures kept { by.new
        ≡ kept_by by.old (O.keeps by.old) (graph_of graph.now) tables.now ledger.old cells.old used
        (token_at ledger.old place).tag }
{
    // Matching.
    let t = Token::read(ledger, place);
    let tag = t.tag;
    let arity = store_enabled::arity(tables, tag);
    let matched = fire_operands::operands_of(&store.links, ledger, used, tag, arity, place);
    let left = matched.left;
    let right = matched.right;
    let operands = Places {
        place,
        other: matched.other,
    };
    // Instruction fetch.
    let r = Instruction::read(graph, tag.instruction as usize);
    let o = Operation::from(r.code);
    // Operation.
    let control = by.control(right);
    let size = cells.len() / cell::WIDTH;
    let action = by.operate(tables, o, r.constant, size, left, right)?;
    // New tags.
    let outputs = tags::new_tags(graph, tables, o, tag, r, control)?;
    // Output.
    fire_commit::commit(
        tables, store, ledger, cells, used, operands, action, outputs,
    )
}
