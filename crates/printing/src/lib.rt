// What the printing program prints: run, listing and printed lines in one, with 01's limits (01, "The printed listing").
#![tactic(auto)]

ghost use Rattle.std.specs.Prelude.{◌≡◌, ◌≤◌, length};
ghost use Rattle.record.specs.TokensAndTags.{most_tokens, capacity_of};
ghost use Rattle.text.specs.Text.{printed_of, printed_out};
ghost use Rattle.printing.specs.PrintedRun.{text_of_run, PrintedRun};

use record::{cell, token};
use rules::answer::Answer;
use text::TooSmall;

const BUDGET: u16 = token::MOST as u16;

// Lists the used records of a ledger and prints them, with the answer before them and the cells behind; `sorted` is room
// for the listing.
fn print_left(
    answer: Answer,
    ledger: &[u8],
    cells: &[u8],
    sorted: &mut [u8],
    out: &mut [u8],
) -> Result<usize, TooSmall>
    requires { (answer.tokens ≤ most_tokens) × (answer.tokens ≤ capacity_of (length ledger.now)) × (length sorted.old ≡ length ledger.now) }
    ensures value { result ≡ printed_of (text_of_run answer ledger.now cells.now) out.old }
    ensures out_after { out.new ≡ printed_out (text_of_run answer ledger.now cells.now) out.old }
{
    let used = answer.tokens * token::WIDTH;
    listing::list(&ledger[0..used], &mut sorted[0..used]).unwrap();
    text::print(answer, &sorted[0..used], cells, out)
}

// Prints the run of a graph, a table of named arrays, inputs and picks to the start of `out`: the answer, the sorted tokens and
// the cells that are not absent. `out` stays untouched unless the whole text fits.
pub fn print_run(
    graph: &[u8],
    arrays: &[u8],
    inputs: &[u8],
    picks: &[u8],
    out: &mut [u8],
) -> Result<usize, TooSmall>
    ensures { PrintedRun graph.now arrays.now inputs.now picks.now result out.old out.new }
{
    let mut ledger = [0u8; token::MOST * token::WIDTH];
    let mut cells = [0u8; cell::MOST * cell::WIDTH];
    let mut sorted = [0u8; token::MOST * token::WIDTH];
    let answer = engine::run(
        graph,
        arrays,
        inputs,
        picks,
        BUDGET,
        0,
        &mut ledger,
        &mut cells,
    );
    print_left(answer, &ledger, &cells, &mut sorted, out)
}
