// Bytes written over a part of an output.
ghost use Rattle.std.specs.Prelude.{◌≡◌, ◌+◌, ◌≤◌, length};
ghost use Rattle.copies.specs.Writing.{overwritten};

pub(crate) fn write_over(out: &mut [u8], at: usize, bytes: &[u8])
    requires { at + length bytes.now ≤ length out.old }
    ensures { out.new ≡ overwritten at bytes.now out.old }
{
    out[at..at + bytes.len()].copy_from_slice(bytes);
}
