// The bench listing over the boundary.
ghost use Rattle.std.specs.Prelude.{◌≡◌};
ghost use Rattle.fields.specs.Write.{put_at, place_after};
ghost use Rattle.listing.specs.Bench.{answer};

// The answer to a whole text, at the front of out, and how long it is; where out is too short, nothing is written, and 0 is answered.
#[unsafe(no_mangle)]
pub extern "C" fn mk_bench(text: &[u8], out: &mut [u8]) -> usize
    ensures { (result ≡ place_after out.old 0 (answer text.now)) × (out.new ≡ put_at out.old 0 (answer text.now)) }
{
    listing::bench(text, out)
}
