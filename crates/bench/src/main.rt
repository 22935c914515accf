// The bench: reads a listing from standard input to its end, however long, in a fixed amount of memory, and prints its answer. Where input cannot be read, which is no answer
// about a text, or the answer cannot be written, it says why on standard error. It ends with status 0 in any case, as `./bench` and the tests know it.
#![tactic(auto)]

ghost use Rattle.std.specs.Prelude.{◌≤◌, length, IfOk, IfSome};

use listing::page::{PAGE_BYTES, finish};
use listing::reader::{Reader, feed, start};
use std::io;
use std::io::{Eprint, ErrorKind, Print, Read};

fn main(rt: HostRuntime) {
    let mut line = [0u8; 256];
    let mut ids = [0u64; 64];
    let mut ranges = [0u64; 128];
    let mut pf = [0.0f32; 6656];
    let mut pw = [0u32; 1024];
    let Some(reader) = read_all(
        &mut rt.stdin(),
        &rt,
        &mut line,
        &mut ids,
        &mut ranges,
        &mut pf,
        &mut pw,
    ) else {
        return;
    };
    let mut page = [0u8; PAGE_BYTES];
    let n = finish(reader, &ids, &ranges, &pf, &pw, &mut page);
    if let Err(error) = rt.write_all(&page[..n]) {
        say(&rt, "the answer cannot be written", error);
    }
}

// Feeds the input to the reader, piece by piece, to its end; a read that was interrupted is a piece of no bytes. None where it cannot be read. A proved loop has to end, and
// nothing says that input does, so pieces are counted up to a number that no run reaches.
fn read_all<R: Read, E: Eprint>(
    input: &mut R,
    rt: &E,
    line: &mut [u8; 256],
    ids: &mut [u64; 64],
    ranges: &mut [u64; 128],
    pf: &mut [f32; 6656],
    pw: &mut [u32; 1024],
) -> Option<Reader> {
    let mut space = [0u8; 65536];
    let mut reader = start();
    for _ in 0..u64::MAX {
        match read_piece(input, &mut space) {
            Ok(None) => return Some(reader),
            Ok(Some(n)) => reader = feed(reader, &space[..n], line, ids, ranges, pf, pw),
            Err(error) => {
                say(rt, "standard input cannot be read", error);
                return None;
            }
        }
    }
    let _ = eprintln!(rt; "bench: standard input does not end");
    None
}

// How many bytes one read put at the front of `space`: none where it was interrupted, so that it can be tried again, and None at the end.
fn read_piece<R: Read>(input: &mut R, space: &mut [u8]) -> io::Result<Option<usize>>
    ensures { IfOk result (λ piece. IfSome piece (λ n. n ≤ length space.new)) }
{
    match input.read(space) {
        Ok(0) => Ok(None),
        Ok(n) => Ok(Some(n)),
        Err(error) if error.kind() == ErrorKind::Interrupted => Ok(Some(0)),
        Err(error) => Err(error),
    }
}

// Says on standard error what failed and why; where that cannot be written, there is nobody left to tell.
fn say<E: Eprint>(rt: &E, what: &str, error: io::Error) {
    let _ = eprintln!(rt; "bench: {what}: {error}");
}
