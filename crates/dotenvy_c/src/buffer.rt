//! The caller's buffer.

ghost use Rattle.std.specs.Prelude.{◌≡◌, ◌≤◌, IsTrue, length};
ghost use Rattle.dotenvy_c.specs.Buffer.{written_if};

/// Writes these to the front of a buffer if they fit: the caller says whether the buffer is as long as they are, or
/// longer. What is after them stays.
pub fn write_if<T: Copy>(fits: bool, buffer: &mut [T], front: &[T])
    requires { IsTrue fits → length front.now ≤ length buffer.old }
    ensures { buffer.new ≡ written_if fits front.now buffer.old }
{
    if fits {
        buffer[..front.len()].copy_from_slice(front);
    }
}
