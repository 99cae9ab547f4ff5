// A sheet over bytes that the caller owns. One that exists keeps the rules.
ghost use Rattle.std.specs.Prelude.{◌%◌, ◌<◌, ◌≤◌, length, map, All};
ghost use Rattle.std.specs.Int.{w32, from_le_bytes};

use crate::body::Body;

#[derive(Clone, Copy)]
pub struct Sheet<'a> {
    pub(crate) body: Body<'a>,
    pub(crate) modules: usize,
    ghost rows_fit: { length body.words.now ≤ 2048 },
    ghost modules_fit: { modules ≤ 2048 },
    ghost words_known: { All (λ w. w < 262144) (map (from_le_bytes w32) body.words.now) },
    ghost modules_known: { All (λ w. w % 65536 < modules) (map (from_le_bytes w32) body.words.now) },
}
