// Standard input line by line, and answers to standard output, for the programs that replay vectors.
#![tactic(auto)]

ghost use Rattle.std.specs.Prelude.{◌≡◌, ◌∷◌, [], ◌≤◌, ◌<◌, length, IfSome};
ghost use Rattle.fields.specs.Write.{put_at};
ghost use Rattle.replay.specs.Lines.{first, Holds, Question, IsQuestion};

use fields::find;
use fields::lines::{begins, shift};
use fields::out::put_byte;
use std::io::{Print, Read};

// How many bytes a line takes at the most, with its line feed, and an answer.
const ROOM: usize = 65536;

// A line of a buffer, from one place up to another, where the next one begins, how many of the
// buffer's bytes have been read, and how many more lines are given.
#[derive(Clone, Copy)]
pub struct Place {
    pub from: usize,
    pub to: usize,
    pub next: usize,
    pub have: usize,
    pub left: u64,
}

// Answers each question of the input, a line to a line. `reply` is lent the question and where to
// put the answer, and says where it ends.
pub fn run<R: Read, P: Print, F: FnMut(&[u8], &mut [u8]) -> usize>(
    input: &mut R,
    output: &P,
    mut reply: F,
)
    requires { (f : F) (text : _) (out : _) → IsQuestion text.now → F.pre f text out }
{
    let mut buf = [0u8; ROOM];
    let mut out = [0u8; ROOM];
    let mut at = start();
    while let Some(place) = next(input, output, &mut buf, at) {
        let end = reply(&buf[place.from..place.to], &mut out);
        write_line(output, &mut out, end);
        at = place;
    }
}

// Where the first line begins: nothing is read yet. A proved loop has to end, and nothing says that
// the input does. So lines are counted down, from a number that no run uses up.
pub fn start() -> Place
    ensures { result ≡ first }
{
    Place {
        from: 0,
        to: 0,
        next: 0,
        have: 0,
        left: u64::MAX,
    }
}

// The first line after the last one that is no comment. The comments before it are written as they
// stand.
pub fn next<R: Read, P: Print>(
    input: &mut R,
    output: &P,
    buf: &mut [u8],
    last: Place,
) -> Option<Place>
    ensures buf_len_unchanged { length buf.new ≡ length buf.old }
    ensures question { Question last.left buf.new result }
{
    let mut at = last;
    while let Some(place) = any_next(input, output, buf, at) {
        if !begins(buf, place.from, place.to, b'#') {
            return Some(place);
        }
        write(output, &buf[place.from..place.to]);
        write(output, b"\n");
        at = place;
    }
    None
}

// The line after the last one. Only where the buffer holds no whole line any more, what is left of
// it moves to the front, and more is read behind that. There is no next line of a place that is not
// in the buffer.
fn any_next<R: Read, P: Print>(
    input: &mut R,
    output: &P,
    buf: &mut [u8],
    last: Place,
) -> Option<Place>
    ensures buf_len_unchanged { length buf.new ≡ length buf.old }
    ensures holds { Holds last.left buf.new result }
{
    if buf.len() < last.have || last.left == 0 {
        return None;
    }
    let end = find(buf, last.next, last.have, b'\n');
    if end < last.have {
        return Some(Place {
            from: last.next,
            to: end,
            next: end + 1,
            left: last.left - 1,
            ..last
        });
    }
    let rest = shift(buf, last.next, last.have);
    read_line(input, output, buf, rest, last.left)
}

// Reads behind the first `rest` bytes until a line ends, in more turns than any run takes.
fn read_line<R: Read, P: Print>(
    input: &mut R,
    output: &P,
    buf: &mut [u8],
    rest: usize,
    left: u64,
) -> Option<Place>
    requires { 0 < left }
    ensures buf_len_unchanged { length buf.new ≡ length buf.old }
    ensures holds { Holds left buf.new result }
{
    let mut have = rest;
    for _ in 0..u64::MAX {
        have = read_more(input, output, buf, have)?;
        let end = find(buf, 0, have, b'\n');
        if end < have {
            return Some(Place {
                from: 0,
                to: end,
                next: end + 1,
                have,
                left: left - 1,
            });
        }
    }
    None
}

// One read, behind the first `have` bytes: how many there are then, unless there is no more to do.
// A last line that no line feed ends gets one.
fn read_more<R: Read, P: Print>(
    input: &mut R,
    output: &P,
    buf: &mut [u8],
    have: usize,
) -> Option<usize>
    ensures { IfSome result (λ n. n ≤ length buf.new) }
{
    if buf.len() <= have {
        write(output, b"line too long\n");
        return None;
    }
    let Ok(got) = input.read(&mut buf[have..]) else {
        write(output, b"read error\n");
        return None;
    };
    if got > 0 {
        return Some(have + got);
    }
    if have == 0 {
        return None;
    }
    put_byte(buf, have, b'\n');
    Some(have + 1)
}

// Puts a line feed at `end` and writes out up to there. Where it does not fit, out goes without it.
pub fn write_line<P: Print>(output: &P, out: &mut [u8], end: usize)
    ensures { out.new ≡ put_at out.old end (10 ∷ []) }
{
    let next = put_byte(out, end, b'\n');
    if let Some(line) = out.get(..next) {
        write(output, line);
    }
}

// Writes all of the bytes. A write that fails is passed over: what is missing shows where the answers are compared.
fn write<P: Print>(output: &P, bytes: &[u8]) {
    let _ = output.write_all(bytes);
}
