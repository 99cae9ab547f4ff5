// A text cue: 0 to 16 bytes, in byte order.
ghost use Rattle.std.specs.Prelude.{◌≡◌, ◌-◌, ◌≤◌, drop, replicate};

// Spare bytes are zero, so that equal texts are the same value. The number stands beside the bytes, since nothing here may take
// memory as a String does.
#[derive(Clone, Copy, PartialEq, Eq, Debug)]
pub struct Text {
    pub(crate) bytes: [u8; 16],
    pub(crate) len: usize,
    ghost short: { len ≤ 16 },
    ghost spare: { drop len bytes ≡ replicate (16 - len) 0 },
}
