// The range run of the crate abi_ranges under the name that C and Rust link, with the same promise. It is an archive of its own, as that crate says.
#![tactic(auto)]

ghost use Rattle.range_engine.specs.Promise.{lent_to_run, left_by_run, RangesOn};
ghost use Rattle.abi.specs.Numbers.{AsNumber};

#[unsafe(no_mangle)]
pub extern "C" fn ttda_run_ranges(
    graph: &[u8],
    arrays: &[u8],
    inputs: &[u8],
    picks: &[u8],
    budget: u16,
    bound: u16,
    ledger: &mut [u8],
    cells: &mut [u8],
) -> u64
    ensures { AsNumber result (λ a.
        RangesOn graph.now arrays.now inputs.now budget bound
        (lent_to_run picks.now ledger.old cells.old)
        (left_by_run a ledger.new cells.new)) }
{
    abi_ranges::ttda_run_ranges(graph, arrays, inputs, picks, budget, bound, ledger, cells)
}
