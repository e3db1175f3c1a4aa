// Prints a ledger of twelve records from standard input, then its listing; then what is answered for
// other lengths, with the output where it is small. A line is a record, two digits to each byte. Each
// field decides between some two of the records, and two keys stand there more than once.
#![tactic(auto)]

ghost use Rattle.std.specs.Prelude.{◌*◌, ◌≤◌};
ghost use Rattle.record.specs.Widths.{token_width};

use console::read_full;
use record::token;
use rules::answer;
use rules::answer::Refusal;
use std::io;

fn print_bytes(rt: &impl Print, s: &[u8]) -> io::Result<()> {
    for record in s.chunks(token::WIDTH) {
        for byte in record {
            print!(rt; "{byte:02x}")?;
        }
        println!(rt)?;
    }
    Ok(())
}

fn print_answer(rt: &impl Print, answer: Result<(), Refusal>) -> io::Result<()> {
    let number = match answer {
        Ok(()) => 0,
        Err(refusal) => answer::number(refusal),
    };
    println!(rt; "{number}")
}

fn print_listing(rt: &impl Print, ledger: &[u8], out: &mut [u8]) -> io::Result<()> {
    print_answer(rt, listing::list(ledger, out))?;
    print_bytes(rt, out)
}

// The same with an output of `bytes` bytes, each 170.
fn print_lent(rt: &impl Print, ledger: &[u8], bytes: usize) -> io::Result<()>
    requires { bytes ≤ 12 * token_width }
{
    let mut out = [170u8; 12 * token::WIDTH];
    print_listing(rt, ledger, &mut out[0..bytes])
}

// The answer for a ledger of zeros.
fn print_limit(rt: &impl Print, bytes: usize) -> io::Result<()>
    requires { bytes ≤ 65536 }
{
    let zeros = [0u8; 65536];
    let mut out = [0u8; 65536];
    print_answer(rt, listing::list(&zeros[0..bytes], &mut out[0..bytes]))
}

fn main(rt: HostRuntime) -> io::Result<()> {
    let mut ledger = [0u8; 12 * token::WIDTH];
    read_full(&mut rt.stdin(), &mut ledger)?;
    print_bytes(&rt, &ledger)?;
    print_lent(&rt, &ledger, 12 * token::WIDTH)?;
    // An output that is shorter or longer, and a ledger that is not whole records.
    print_lent(&rt, &ledger, token::WIDTH)?;
    print_lent(&rt, &ledger[0..token::WIDTH], 2 * token::WIDTH)?;
    print_lent(&rt, &ledger[0..token::WIDTH + 10], token::WIDTH + 10)?;
    // No record, 2,048 records and 2,049.
    print_limit(&rt, 0)?;
    print_limit(&rt, token::MOST * token::WIDTH)?;
    print_limit(&rt, (token::MOST + 1) * token::WIDTH)
}
