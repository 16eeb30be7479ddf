// A text that grows in a lent buffer.
ghost use Rattle.std.specs.Prelude.{◌≤◌, length};

// The first `len` bytes of the buffer.
#[derive(Drop)]
pub struct Text<'a> {
    pub bytes: &'a mut [u8],
    pub len: usize,
    ghost within: { len ≤ length bytes.now },
}
