// The bench listing: lines with tabs that say a grid, its regions and particles, and what stands on the nodes after a scatter. A text is read in pieces, in a fixed amount of
// memory, and answered by another text.
#![tactic(auto)]

pub mod lines;
pub mod page;
pub mod reader;
pub mod records;

ghost use Rattle.std.specs.Prelude.{◌≡◌};
ghost use Rattle.fields.specs.Write.{put_at, place_after};
ghost use Rattle.listing.specs.Bench.{answer};

use fields::out::put_bytes;
use page::{PAGE_BYTES, finish};
use reader::{KEPT_FLOATS, KEPT_RANGE_WORDS, KEPT_REGIONS, KEPT_WORDS, LINE_BYTES, feed, start};

// The answer to a whole text, at the front of out, and how long it is; where out is too short, nothing is written, and 0 is answered.
pub fn bench(text: &[u8], out: &mut [u8]) -> usize
    ensures { (result ≡ place_after out.old 0 (answer text.now)) × (out.new ≡ put_at out.old 0 (answer text.now)) }
{
    let mut line = [0u8; LINE_BYTES];
    let mut ids = [0u64; KEPT_REGIONS];
    let mut ranges = [0u64; KEPT_RANGE_WORDS];
    let mut pf = [0.0f32; KEPT_FLOATS];
    let mut pw = [0u32; KEPT_WORDS];
    let r = feed(
        start(),
        text,
        &mut line,
        &mut ids,
        &mut ranges,
        &mut pf,
        &mut pw,
    );
    let mut page = [0u8; PAGE_BYTES];
    let n = finish(r, &ids, &ranges, &pf, &pw, &mut page);
    put_bytes(out, 0, &page[..n])
}
