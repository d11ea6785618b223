// Writing over a part of a buffer.
ghost use Rattle.std.specs.Prelude.{◌≡◌, ◌+◌, ◌<◌, ◌≤◌, length};
ghost use Rattle.tip_store.specs.Pasting.{Pasted};

/// Writes elements over those from an index on. Where the buffer is too short for them, nothing is written.
pub fn paste<T: Copy>(buffer: &mut [T], start: usize, elements: &[T])
    ensures within { start + length elements.now ≤ length buffer.old → (none : _) → Pasted none start elements.now buffer.old buffer.new }
    ensures beyond { length buffer.old < start + length elements.now → buffer.new ≡ buffer.old }
{
    if start <= buffer.len() && elements.len() <= buffer.len() - start {
        buffer[start..start + elements.len()].copy_from_slice(elements);
    }
}
