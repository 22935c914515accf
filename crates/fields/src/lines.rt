// Lines in a buffer: how one begins, and the bytes of one that has not ended moved to the front. `find` says where one ends.
ghost use Rattle.std.specs.Prelude.{◌≡◌, length};
ghost use Rattle.std.proofs.Math.Seq.{slice};
ghost use Rattle.fields.specs.Read.{begins_with};
ghost use Rattle.fields.specs.Write.{put_at};

// Whether `byte` is the first of the bytes of s from `from` up to `to`.
pub fn begins(s: &[u8], from: usize, to: usize, byte: u8) -> bool
    ensures { result ≡ begins_with byte (slice from to s.now) }
{
    from < to.min(s.len()) && s[from] == byte
}

// Moves the bytes of buf from `from` up to `to` to its front, and says how many they are.
pub fn shift(buf: &mut [u8], from: usize, to: usize) -> usize
    ensures buf_after { buf.new ≡ put_at buf.old 0 (slice from to buf.old) }
    ensures value { result ≡ length (slice from to buf.old) }
{
    let stop = to.min(buf.len());
    if stop <= from {
        return 0;
    }
    buf.copy_within(from..stop, 0);
    stop - from
}
