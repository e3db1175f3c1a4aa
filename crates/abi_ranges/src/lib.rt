// What Rust and C link for range runs (02, R-11), in an archive of its own: the compiler inlines what one place calls, and a range run in the same archive
// would be a second caller of all that fires in a plain one.
#![tactic(auto)]

ghost use Rattle.range_engine.specs.Promise.{lent_to_run, left_by_run, RangesOn};
ghost use Rattle.abi.specs.Numbers.{AsNumber};

pub fn ttda_run_ranges(
    graph: &[u8],
    arrays: &[u8],
    inputs: &[u8],
    picks: &[u8],
    budget: u16,
    bound: u16,
    ledger: &mut [u8],
    cells: &mut [u8],
) -> u64
    ensures { AsNumber result (λ a.
        RangesOn graph.now arrays.now inputs.now budget bound
        (lent_to_run picks.now ledger.old cells.old)
        (left_by_run a ledger.new cells.new)) }
{
    abi::number_of(range_engine::run_ranges(
        graph, arrays, inputs, picks, budget, bound, ledger, cells,
    ))
}
