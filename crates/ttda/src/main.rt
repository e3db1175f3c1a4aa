// Prints what a run of the files `graph`, `arrays`, `inputs` and `picks` leaves (01, "The printed
// listing"), or says on standard error why it cannot. The files are those of the folder that the first argument names, or
// of the current one.
#![tactic(auto)]

ghost use Rattle.std.specs.Prelude.{◌≡◌, ◌≤◌, length, IfSome};

use console::read_full;
use record::{array, instruction, pick, token};
use std::env::{Env, FillError};
use std::{fs, io};
use text::TooSmall;

// The system's number for a name that is too long.
const ENAMETOOLONG: i32 = 36;

// Says on standard error why what has that name failed.
fn fail(rt: &HostRuntime, what: &str, error: io::Error) {
    let _ = eprintln!(rt; "{what}: {error}");
}

// Reads a file to the start of buf, and answers how many bytes, or none after saying why not. A missing
// file counts as empty. Where the file is longer than buf, buf is longer than what a run accepts.
fn read_file(rt: &HostRuntime, path: &str, buf: &mut [u8]) -> Option<usize>
    ensures { IfSome result (λ n. n ≤ length buf.new) }
{
    let mut file = match fs::open(rt, path) {
        Ok(file) => file,
        Err(error) => {
            if error.kind() == io::ErrorKind::NotFound {
                return Some(0);
            }
            fail(rt, path, error);
            return None;
        }
    };
    match read_full(&mut file, buf) {
        Ok(n) => Some(n),
        Err(error) => {
            fail(rt, path, error);
            None
        }
    }
}

// The path of those bytes. The library takes text alone.
fn path_of(bytes: &[u8]) -> io::Result<&str> {
    str::from_utf8(bytes).map_err(|_| io::Error::from(io::ErrorKind::InvalidFilename))
}

// Reads a file of the folder whose name is the first n bytes of path, of the current one where n is 0.
fn read_in(rt: &HostRuntime, path: &mut [u8], n: usize, name: &str, buf: &mut [u8]) -> Option<usize>
    requires { (length path.old ≡ 4096) × (n ≤ 4000) × (length name.now ≤ 6) }
    ensures { IfSome result (λ m. m ≤ length buf.new) }
{
    if n == 0 {
        return read_file(rt, name, buf);
    }
    path[n] = b'/';
    buffer::write_at(path, n + 1, name.as_bytes());
    match path_of(&path[..n + 1 + name.len()]) {
        Ok(file) => read_file(rt, file, buf),
        Err(error) => {
            fail(rt, "folder", error);
            None
        }
    }
}

// Whether a folder, or a file, of that name can be opened, after saying why not.
fn opens(rt: &HostRuntime, name: &[u8]) -> bool {
    match path_of(name) {
        Ok(path) => match fs::open(rt, path) {
            Ok(_) => true,
            Err(error) => {
                fail(rt, path, error);
                false
            }
        },
        Err(error) => {
            fail(rt, "folder", error);
            false
        }
    }
}

// Puts the first argument at the start of buf, and answers its length, 0 without one, or none after
// saying why it names no folder.
fn folder_in(rt: &HostRuntime, buf: &mut [u8]) -> Option<usize>
    ensures { IfSome result (λ n. n ≤ length buf.new) }
{
    match rt.arg(1, buf) {
        Ok(n) => {
            if n > 0 && !opens(rt, &buf[..n]) {
                return None;
            }
            Some(n)
        }
        Err(FillError::NotPresent) => Some(0),
        Err(FillError::TooLong) => {
            fail(rt, "folder", io::Error::from_raw_os_error(ENAMETOOLONG));
            None
        }
    }
}

// Prints the run of what the files hold or, where it cannot, a line on standard error.
fn show(
    rt: &HostRuntime,
    graph: &[u8],
    arrays: &[u8],
    inputs: &[u8],
    picks: &[u8],
    out: &mut [u8],
) {
    match printing::print_run(graph, arrays, inputs, picks, out) {
        Ok(n) => {
            if let Err(error) = rt.write_all(&out[..n]) {
                fail(rt, "write", error);
            }
        }
        Err(TooSmall) => {
            fail(rt, "text", io::Error::other("too long"));
        }
    }
}

// Reads the four files of the folder whose name is the first n bytes of path, and shows their run.
fn show_folder(rt: &HostRuntime, path: &mut [u8], n: usize)
    requires { (length path.old ≡ 4096) × (n ≤ 4000) }
{
    // Each a record longer than the longest that a run accepts.
    let mut graph = [0u8; 257 * instruction::WIDTH];
    let mut arrays = [0u8; 65 * array::WIDTH];
    let mut inputs = [0u8; 2049 * token::WIDTH];
    let mut picks = [0u8; 2049 * pick::WIDTH];
    let g = read_in(rt, path, n, "graph", &mut graph);
    let a = read_in(rt, path, n, "arrays", &mut arrays);
    let i = read_in(rt, path, n, "inputs", &mut inputs);
    let p = read_in(rt, path, n, "picks", &mut picks);
    let Some(g) = g else { return };
    let Some(a) = a else { return };
    let Some(i) = i else { return };
    let Some(p) = p else { return };
    // Room for every text (`EveryTextFits` of the crate printing).
    let mut out = [0u8; 200778];
    show(
        rt,
        &graph[..g],
        &arrays[..a],
        &inputs[..i],
        &picks[..p],
        &mut out,
    );
}

fn main(rt: HostRuntime) {
    // The name of the folder, and behind it room for that of a file.
    let mut path = [0u8; 4096];
    if let Some(n) = folder_in(&rt, &mut path[..4000]) {
        show_folder(&rt, &mut path, n);
    }
}
