// What stands behind a PDU's header. In a file of its own, since its specs name it.
ghost use Rattle.std.specs.Prelude.{◌+◌, ◌*◌, ◌<◌, ◌≤◌, ◌^◌, length};

// `n` bits of the store from `from` on, and then `fill` fill bits.
#[derive(Clone, Copy)]
pub struct Body<'a> {
    pub store: &'a [u8],
    pub from: usize,
    pub n: usize,
    pub fill: usize,
    ghost inside: { (from + n ≤ 8 * length store.now) × (8 * length store.now < 2 ^ 64) },
}
