// The profile of the crate abi_profile under the name that C and Rust link, with the same promise. It is an archive of its own, as that crate says.
#![tactic(auto)]

ghost use Rattle.rules.specs.Runs.{lent_to_profile, left_by_profile, ProfiledOn};
ghost use Rattle.abi.specs.Numbers.{AsNumber};

// The number of records goes to `records`.
#[unsafe(no_mangle)]
pub extern "C" fn ttda_profile(
    graph: &[u8],
    arrays: &[u8],
    inputs: &[u8],
    ledger: &mut [u8],
    cells: &mut [u8],
    profile: &mut [u8],
    records: &mut u64,
) -> u64
    ensures { AsNumber result (λ a.
        ProfiledOn graph.now arrays.now inputs.now
        (lent_to_profile ledger.old cells.old profile.old)
        (left_by_profile (record { answer = a; records = records.new }) ledger.new cells.new profile.new)) }
{
    abi_profile::ttda_profile(graph, arrays, inputs, ledger, cells, profile, records)
}
