// The functions of the crate abi under the names that C and Rust link, with the same promises. C has no generic functions, so each kind of run
// has a name of its own.
#![tactic(auto)]

ghost use Rattle.std.specs.Prelude.{◌≡◌, length, suc};
ghost use Rattle.rules.specs.Answer.{values_of, values_needed};
ghost use Rattle.rules.specs.Needs.{needs};
ghost use Rattle.record.specs.ExpressionRecords.{expression_of};
ghost use Rattle.rules.specs.Expression.{graph_for, check_made, made_of, output_of, evaluated};
ghost use Rattle.rules.specs.Runs.{lent_to_run, left_by_run, lent_to_logged, left_by_logged, ReplayedOn};
ghost use Rattle.rules.specs.Bounded.{BoundedOn, BoundLoggedOn, BoundCarriedOn};
ghost use Rattle.activities.specs.Counts.{counts};
ghost use Rattle.plot_cache.specs.Serves.{request};
ghost use Rattle.convert.specs.Convert.{token_rest, log_rest, convert_answer as Convert·answer, converted_out as Convert·outAfter};
ghost use Rattle.listing.specs.Listing.{listed_out};
ghost use Rattle.listing.specs.Listing.{list_answer as Listing·answer};
ghost use Rattle.abi.specs.Numbers.{packed, AsNumber, made_number, value_number, unpacked, tally_number, limits_in, ServesNumber, print_answer, print_after};

#[unsafe(no_mangle)]
pub extern "C" fn ttda_run(
    graph: &[u8],
    arrays: &[u8],
    inputs: &[u8],
    picks: &[u8],
    budget: u16,
    bound: u16,
    ledger: &mut [u8],
    cells: &mut [u8],
) -> u64
    ensures { AsNumber result (λ a.
        BoundedOn graph.now arrays.now inputs.now budget bound
        (lent_to_run picks.now ledger.old cells.old)
        (left_by_run a ledger.new cells.new)) }
{
    abi::ttda_run(graph, arrays, inputs, picks, budget, bound, ledger, cells)
}

#[unsafe(no_mangle)]
pub extern "C" fn ttda_carry_on(
    graph: &[u8],
    arrays: &[u8],
    picks: &[u8],
    budget: u16,
    bound: u16,
    firings: u16,
    tokens: u16,
    ledger: &mut [u8],
    cells: &mut [u8],
) -> u64
    ensures { AsNumber result (λ a.
        BoundCarriedOn graph.now arrays.now picks.now budget bound firings tokens
        a ledger.old ledger.new cells.old cells.new) }
{
    abi::ttda_carry_on(
        graph, arrays, picks, budget, bound, firings, tokens, ledger, cells,
    )
}

#[unsafe(no_mangle)]
pub extern "C" fn ttda_run_logged(
    graph: &[u8],
    arrays: &[u8],
    inputs: &[u8],
    picks: &[u8],
    budget: u16,
    bound: u16,
    ledger: &mut [u8],
    cells: &mut [u8],
    log: &mut [u8],
) -> u64
    ensures { AsNumber result (λ a.
        BoundLoggedOn graph.now arrays.now inputs.now bound
        (lent_to_logged picks.now budget ledger.old cells.old log.old)
        (left_by_logged a ledger.new cells.new log.new)) }
{
    abi::ttda_run_logged(
        graph, arrays, inputs, picks, budget, bound, ledger, cells, log,
    )
}

#[unsafe(no_mangle)]
pub extern "C" fn ttda_replay(
    graph: &[u8],
    arrays: &[u8],
    inputs: &[u8],
    log: &[u8],
    ledger: &mut [u8],
    cells: &mut [u8],
) -> u64
    ensures { AsNumber result (λ a.
        ReplayedOn graph.now arrays.now inputs.now log.now
        ledger.old cells.old a ledger.new cells.new) }
{
    abi::ttda_replay(graph, arrays, inputs, log, ledger, cells)
}

#[unsafe(no_mangle)]
pub extern "C" fn ttda_bounds(graph: &[u8], inputs: &[u8]) -> u64
    ensures { result ≡ packed (values_needed (needs graph.now inputs.now)) }
{
    abi::ttda_bounds(graph, inputs)
}

#[unsafe(no_mangle)]
pub extern "C" fn ttda_expression(expression: &[u8], graph: &mut [u8]) -> u64
    ensures value { result ≡ packed (made_number (made_of (check_made expression.now (length graph.old)) (suc (length (expression_of expression.now))))) }
    ensures graph_after { graph.new ≡ output_of (check_made expression.now (length graph.old)) (graph_for (expression_of expression.now)) graph.old }
{
    abi::ttda_expression(expression, graph)
}

#[unsafe(no_mangle)]
pub extern "C" fn ttda_expression_value(expression: &[u8], values: &[u8]) -> u64
    ensures { result ≡ packed (value_number (evaluated expression.now values.now)) }
{
    abi::ttda_expression_value(expression, values)
}

#[unsafe(no_mangle)]
pub extern "C" fn ttda_list(ledger: &[u8], out: &mut [u8]) -> u64
    ensures { (result ≡ Listing·answer ledger.now out.old) × (out.new ≡ listed_out ledger.now out.old) }
{
    abi::ttda_list(ledger, out)
}

// How many activities a bound holds back in a saved state, and how many are enabled in all.
#[unsafe(no_mangle)]
pub extern "C" fn ttda_held(
    graph: &[u8],
    bound: u16,
    firings: u16,
    tokens: u16,
    ledger: &[u8],
    cells: &[u8],
) -> u64
    ensures { result ≡ packed (tally_number (counts graph.now bound firings tokens ledger.now cells.now)) }
{
    abi::ttda_held(graph, bound, firings, tokens, ledger, cells)
}

// 1 if what is kept of a run that ended so serves for the run that is asked for, else 0.
#[unsafe(no_mangle)]
pub extern "C" fn ttda_serves(
    kept_graph: &[u8],
    kept_arrays: &[u8],
    kept_inputs: &[u8],
    kept_picks: &[u8],
    kept_limits: &[u64; 4],
    kept_answer: u64,
    kept_held: u64,
    graph: &[u8],
    arrays: &[u8],
    inputs: &[u8],
    picks: &[u8],
    limits: &[u64; 4],
) -> u64
    ensures { ServesNumber
        (request kept_graph.now kept_arrays.now kept_inputs.now kept_picks.now (limits_in kept_limits.now))
        kept_answer kept_held
        (request graph.now arrays.now inputs.now picks.now (limits_in limits.now)) result }
{
    abi::ttda_serves(
        kept_graph,
        kept_arrays,
        kept_inputs,
        kept_picks,
        kept_limits,
        kept_answer,
        kept_held,
        graph,
        arrays,
        inputs,
        picks,
        limits,
    )
}

#[unsafe(no_mangle)]
pub extern "C" fn ttda_convert(old: &[u8], out: &mut [u8]) -> u64
    ensures value { result ≡ Convert·answer token_rest old.now out.old }
    ensures out_after { out.new ≡ Convert·outAfter token_rest old.now out.old }
{
    abi::ttda_convert(old, out)
}

#[unsafe(no_mangle)]
pub extern "C" fn ttda_convert_log(old: &[u8], out: &mut [u8]) -> u64
    ensures value { result ≡ Convert·answer log_rest old.now out.old }
    ensures out_after { out.new ≡ Convert·outAfter log_rest old.now out.old }
{
    abi::ttda_convert_log(old, out)
}

#[unsafe(no_mangle)]
pub extern "C" fn ttda_print(answer: u64, listing: &[u8], cells: &[u8], out: &mut [u8]) -> u64
    ensures value { result ≡ print_answer (unpacked answer) listing.now cells.now out.old }
    ensures out_after { out.new ≡ print_after (unpacked answer) listing.now cells.now out.old }
{
    abi::ttda_print(answer, listing, cells, out)
}
