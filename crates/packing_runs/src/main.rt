// Replays the vectors of `packing`: a question to a line of standard input, its answer to a line of
// standard output. A line that begins with `#` is copied, and one that is no question is answered
// `?`. A read that fails, and a line of more than 65,535 bytes, end the run with a line that says so.
#![tactic(auto)]

mod answer;
mod question;

use fields::out::put_byte;
use question::Question;

fn main(rt: HostRuntime) {
    replay::run(&mut rt.stdin(), &rt, reply);
}

// Puts the answer at the front of out, and says where it ends. Each program has a `Question` and an answer of its own; what they share is `replay::run`.
fn reply(text: &[u8], out: &mut [u8]) -> usize {
    match Question::read(text) {
        Some(question) => answer::answer(question, out),
        None => put_byte(out, 0, b'?'),
    }
}
