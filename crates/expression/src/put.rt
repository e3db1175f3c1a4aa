// The graph of an expression, by recursion on a falling record number.
ghost use Rattle.std.specs.Prelude.{◌≡◌, List, ◌++◌, ℕ, suc, ◌*◌, ◌≤◌, ◌<◌, length, Ok};
ghost use Rattle.buffer.specs.Rows.{joined, written_over};
ghost use Rattle.record.specs.ExpressionRecords.{expression_of};
ghost use Rattle.record.specs.GraphRecords as Graph;
ghost use Rattle.record.specs.Widths.{graph_width};
ghost use Rattle.rules.specs.Expression.{code_for, sending, graph_for, put_at, check_made};
ghost use Rattle.rules.specs.Expression as Expression;
ghost use Rattle.expression.specs.Tables.{NumberedRecords};

use crate::check::MOST;
use crate::{kind, numbers};
use record::codec::{Decode, Encode};
use record::instruction::{Destination, Instruction};
use record::term;
use record::term::Term;

// The codes of COPY and OUT. Numbers, since the code of an operation on two records is its kind.
const COPY: u8 = 1;

const OUT: u8 = 3;

const NOWHERE: Destination = Destination {
    instruction: 0,
    port: 0,
};

// An instruction without a constant that sends to one destination. It goes by the code, as the definition `sending` does.
fn sending(code: u8, to: Destination) -> Instruction
    ensures { result ≡ sending code to }
{
    Instruction {
        code,
        fanout: 1,
        first: to,
        second: NOWHERE,
        constant: 0,
        zeros: 0,
    }
}

// OUT sends to none.
fn out() -> Instruction
    ensures { result ≡ Expression.out }
{
    Instruction {
        code: OUT,
        fanout: 0,
        first: NOWHERE,
        second: NOWHERE,
        constant: 0,
        zeros: 0,
    }
}

// COPY for a variable.
fn code_of(t: Term) -> u8
    ensures { result ≡ code_for t }
{
    if kind::is_variable(t) { COPY } else { t.kind }
}

// Puts the instruction of record i, which sends to `to`, those of the records that it names, and so on.
fn put(expression: &[u8], numbers: &[u16; MOST], i: usize, to: Destination, graph: &mut [u8])
    requires { NumberedRecords expression.now numbers.now × (i < length (expression_of expression.now))
        × (graph_width * suc (length (expression_of expression.now)) ≤ length graph.old) }
    ensures { (g : List Instruction) (rest : List ℕ)
        → length g ≡ suc (length (expression_of expression.now)) → graph.old ≡ joined Graph.encode_instruction g ++ rest
        → graph.new ≡ joined Graph.encode_instruction (put_at (expression_of expression.now) i to g) ++ rest }
{
    let t = Term::read(expression, i);
    let number = numbers[i];
    let r = sending(code_of(t), to);
    r.write(graph, number as usize);
    if kind::is_variable(t) {
        return;
    }
    let left = Destination {
        instruction: number,
        port: 0,
    };
    let right = Destination {
        instruction: number,
        port: 1,
    };
    put(expression, numbers, t.left as usize, left, graph);
    put(expression, numbers, t.right as usize, right, graph);
}

// Writes the graph: OUT, then from the last record down, which sends to it.
pub fn write(expression: &[u8], graph: &mut [u8])
    requires { check_made expression.now (length graph.old) ≡ Ok tt }
    ensures { graph.new ≡ written_over Graph.encode_instruction (graph_for (expression_of expression.now)) graph.old }
{
    let numbers = numbers::numbers(expression);
    let n = expression.len() / term::WIDTH;
    out().write(graph, n);
    let out = Destination {
        instruction: n as u16,
        port: 0,
    };
    put(expression, &numbers, n - 1, out, graph);
}
