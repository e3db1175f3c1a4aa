// What Rust and C link for profiles (02, R-1), in an archive of its own: the compiler inlines what one place calls, and the steps of a profile would be a
// second caller of all that fires in a run.
#![tactic(auto)]

ghost use Rattle.rules.specs.Runs.{lent_to_profile, left_by_profile, ProfiledOn};
ghost use Rattle.abi.specs.Numbers.{AsNumber};

// The number of records goes to `records`.
pub fn ttda_profile(
    graph: &[u8],
    arrays: &[u8],
    inputs: &[u8],
    ledger: &mut [u8],
    cells: &mut [u8],
    profile: &mut [u8],
    records: &mut u64,
) -> u64
    ensures { AsNumber result (λ a.
        ProfiledOn graph.now arrays.now inputs.now
        (lent_to_profile ledger.old cells.old profile.old)
        (left_by_profile (record { answer = a; records = records.new }) ledger.new cells.new profile.new)) }
{
    let profiled = profile::profile(graph, arrays, inputs, ledger, cells, profile);
    *records = profiled.records as u64;
    let answer = profiled.answer;
    abi::number_of(answer)
}
