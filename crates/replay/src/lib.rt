// A replay (02, R-7): the activities that a log names fire in turn, by the engine's loop.
#![tactic(auto)]

ghost use Rattle.std.specs.Prelude.{◌+◌, ◌-◌, ◌/◌, ◌≡◌, [], length, Ok};
ghost use Rattle.record.specs.Widths.{cell_width, log_width};
ghost use Rattle.machine.specs.Replay.{replay as Machine·replay};
ghost use Rattle.rules.specs.declared.answer.Refusal.TheVariants.{NotEnabled};
ghost use Rattle.rules.specs.Check.{check};
ghost use Rattle.rules.specs.Run.{first_state};
ghost use Rattle.rules.specs.Log.{names_in};
ghost use Rattle.rules.specs.Runs.{ReplayedOn};
ghost use Rattle.start.specs.Begun.{machine_lent};
ghost use Rattle.start.specs.Ended.{EndedAt};

use checks::stores::Stores;
use engine::choice::Order;
use engine::turns;
use fire::Plain;
use record::log;
use rules::answer;
use rules::answer::Answer;

// How many records a log of `bytes` bytes has, the last one whole or not.
fn records_in(bytes: usize) -> usize
    ensures { result ≡ (bytes + (log_width - 1)) / log_width }
{
    bytes.div_ceil(log::WIDTH)
}

// A replay that passed every check begins as a run does, and each record is a turn: a last one that is not whole is a record too.
fn accepted(
    graph: &[u8],
    arrays: &[u8],
    inputs: &[u8],
    log: &[u8],
    ledger: &mut [u8],
    cells: &mut [u8],
) -> Answer
    requires { check graph.now arrays.now inputs.now [] (length ledger.old) (length cells.old) ≡ Ok tt }
    ensures { EndedAt
        (Machine·replay (machine_lent graph.now arrays.now ledger.old cells.old) NotEnabled
        (names_in log.now) 0 (first_state inputs.now (length cells.old / cell_width))) result ledger.old
        cells.old ledger.new cells.new }
{
    let mut none = [0u8; 0];
    turns::from_inputs(
        graph,
        arrays,
        inputs,
        Order::Log,
        log,
        records_in(log.len()),
        &mut Plain,
        ledger,
        cells,
        &mut none,
    )
}

// A replay over lent bytes: its answer, and what it leaves in ledger and cells, are what the rules give. It takes no picks.
pub fn replay(
    graph: &[u8],
    arrays: &[u8],
    inputs: &[u8],
    log: &[u8],
    ledger: &mut [u8],
    cells: &mut [u8],
) -> Answer
    ensures { ReplayedOn graph.now arrays.now inputs.now log.now ledger.old cells.old result
        ledger.new cells.new }
{
    let stores = Stores {
        inputs: inputs.len(),
        picks: 0,
        ledger: ledger.len(),
        cells: cells.len(),
    };
    let checked = checks::check_with(graph, arrays, &stores, inputs, ledger.len(), cells.len());
    match checked {
        Err(fault) => answer::refused(fault),
        Ok(()) => accepted(graph, arrays, inputs, log, ledger, cells),
    }
}
