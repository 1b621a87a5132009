// Fields of any width in a run of octets, most significant bit first.
#![tactic(auto)]

ghost use Rattle.std.specs.Prelude.{ℕ, List, ◌≡◌, ◌+◌, ◌*◌, ◌/◌, ◌%◌, ◌<◌, ◌≤◌, ◌^◌, cond, eqb, length, get_or, set, replicate};
ghost use Rattle.bitbuffer.specs.Bits.{value_bits, bits_value, bits_of, written, part, Wrote};
ghost use Rattle.bitbuffer.specs.Chunks.{GivesBits};

// Is the bit at `at` set?
// Kept: the room behind a place is asked for in the contracts of this crate, by no type: one of octets and place would be made at each of
// these calls and taken apart in it. `Cursor` of mac_resource_reader and `Piece` of mac_writer carry it where reading or a field goes on.
pub fn bit_at(s: &[u8], at: usize) -> bool
    requires { at < 8 * length s.now }
    ensures { result ≡ eqb (get_or (bits_of s.now) at 0) 1 }
{
    let i = at / 8;
    (s[i] >> (7 - at % 8)) % 2 == 1
}

// How many of the `left` bits from `at` on lie in the octet at `at`.
fn chunk(at: usize, left: usize) -> usize
    requires { 0 < left }
    ensures { (0 < result) × (result ≤ left) × (at % 8 + result ≤ 8) }
{
    left.min(8 - at % 8)
}

// The number that the `n` bits from `at` on write, at most eight. The second octet counts only if they go on into it.
fn bits_at(s: &[u8], at: usize, n: usize) -> u64
    requires { (at + n ≤ 8 * length s.now) × (at + n < 2 ^ 64) × (0 < n) × (n ≤ 8) }
    ensures { (value_bits n result ≡ part (bits_of s.now) at n) × (result < 2 ^ n) }
{
    let i = at / 8;
    let j = (at + n - 1) / 8;
    let pair = u64::from(u16::from_be_bytes([s[i], s[j]]));
    (pair >> (16 - (at % 8 + n))) % (1 << n)
}

// `x` with `v` in the place of the `n` bits behind its first `k`.
fn with_bits(x: u8, k: usize, n: usize, v: u64) -> u8
    requires { (k + n ≤ 8) × (v < 2 ^ n) }
    ensures { value_bits 8 result ≡ written (value_bits 8 x) k (value_bits n v) }
{
    // A whole octet: nothing of the old one is left.
    if n == 8 {
        return v as u8;
    }
    let low = 8 - (k + n);
    let old = u64::from(x);
    let before = old >> (n + low);
    let behind = old % (1 << low);
    (((((before << n) | v) << low) | behind) % 256) as u8
}

// Writes `n` bits from `at` on, in one octet.
fn put_chunk(s: &mut [u8], at: usize, n: usize, v: u64)
    requires { (at < 8 * length s.old) × (at % 8 + n ≤ 8) × (v < 2 ^ n) }
    ensures { bits_of s.new ≡ written (bits_of s.old) at (value_bits n v) }
{
    let i = at / 8;
    s[i] = with_bits(s[i], at % 8, n, v);
}

// Writes the bit at `at`, and leaves every other bit.
pub fn set_bit(s: &mut [u8], at: usize, bit: bool)
    requires { at < 8 * length s.old }
    ensures { bits_of s.new ≡ set (bits_of s.old) at (cond bit 1 0) }
{
    put_chunk(s, at, 1, u64::from(bit));
}

// Writes `n` bits from `at` on, what lies in one octet at a time: `bits(left, k)` are the `k` bits before the last `left`.
fn write_chunks<F: Fn(usize, usize) -> u64>(s: &mut [u8], at: usize, n: usize, bits: F)
    requires room { (at + n ≤ 8 * length s.old) × (at + n < 2 ^ 64) }
    requires callable { (left k : ℕ) → left + k ≤ n → 0 < k → k ≤ 8 → F.pre bits left k }
    requires small { (left k v : ℕ) → left + k ≤ n → k ≤ 8 → F.post bits left k v → v < 2 ^ k }
    ensures { (f : List ℕ) → GivesBits (F.post bits) n f → bits_of s.new ≡ written (bits_of s.old) at f }
{
    // Kept: a `while` over what is left, since the pieces are not of one size: the first ends with its octet, and the last with the bits.
    let mut pos = at;
    let mut left = n;
    while 0 < left {
        let k = chunk(pos, left);
        left -= k;
        put_chunk(s, pos, k, bits(left, k));
        pos += k;
    }
}

// Writes the low `width` bits of `value` from `at` on.
pub fn write_bits(s: &mut [u8], at: usize, width: usize, value: u64)
    requires { (at + width ≤ 8 * length s.old) × (at + width < 2 ^ 64) × (width ≤ 64) }
    ensures { bits_of s.new ≡ written (bits_of s.old) at (value_bits width value) }
{
    write_chunks(s, at, width, |left, k| (value >> left) % (1 << k));
}

// Writes `n` clear bits from `at` on.
pub fn write_zeroes(s: &mut [u8], at: usize, n: usize)
    requires { (at + n ≤ 8 * length s.old) × (at + n < 2 ^ 64) }
    ensures { bits_of s.new ≡ written (bits_of s.old) at (replicate n 0) }
{
    write_chunks(s, at, n, |_, _| 0);
}

// Writes a field and returns the position behind it.
pub fn put(s: &mut [u8], at: usize, width: usize, value: u64) -> usize
    requires { (at + width ≤ 8 * length s.old) × (at + width < 2 ^ 64) × (width ≤ 64) }
    ensures { (result ≡ at + width) × Wrote (bits_of s.old) at (bits_of s.new) result (value_bits width value) }
{
    write_bits(s, at, width, value);
    at + width
}

// The number that the `width` bits from `at` on write.
pub fn read_bits(s: &[u8], at: usize, width: usize) -> u64
    requires { (at + width ≤ 8 * length s.now) × (at + width < 2 ^ 64) × (width ≤ 64) }
    ensures { (result ≡ bits_value (part (bits_of s.now) at width)) × (result < 2 ^ width) }
{
    // Kept: a loop of its own. It has the steps of the one of `write_chunks`, which are `chunk`'s; an iterator of the pieces for both would be
    // longer than the two: a struct, its `next` with a contract, and in each loop what was yielded so far in the place of `pos` and `left`.
    let mut sum: u64 = 0;
    let mut pos = at;
    let mut left = width;
    while 0 < left {
        let n = chunk(pos, left);
        left -= n;
        sum = (sum << n) + bits_at(s, pos, n);
        pos += n;
    }
    sum
}

// Copies `n` bits of `src` from `from` on to `dst` from `at` on, what lies in one octet of `dst` at a time.
fn copy_chunks(dst: &mut [u8], at: usize, src: &[u8], from: usize, n: usize)
    requires n_bound { (at + n ≤ 8 * length dst.old) × (from + n ≤ 8 * length src.now) }
    requires n_bound_2 { (at + n < 2 ^ 64) × (from + n < 2 ^ 64) }
    ensures { bits_of dst.new ≡ written (bits_of dst.old) at (part (bits_of src.now) from n) }
{
    write_chunks(dst, at, n, |left, k| bits_at(src, from + (n - left - k), k));
}

// The octet that ends `r` bits before the end of two octets side by side.
fn octet_within(x: u8, y: u8, r: usize) -> u8
    requires { r ≤ 8 }
    ensures { result ≡ (x * 256 + y) / 2 ^ r % 256 }
{
    // Kept: no `u16::from_be_bytes`, under which a copy of whole octets takes twice the time (115 nanoseconds in place of 53 for 1,536 bits).
    (((u16::from(x) * 256 + u16::from(y)) >> r) % 256) as u8
}

// Copies the bits of `src` from `from` on to `n` whole octets of `dst` from octet `at` on. One octet of `src` more is read, so that
// no turn needs a test.
fn copy_octets(dst: &mut [u8], at: usize, src: &[u8], from: usize, n: usize)
    requires { (at + n ≤ length dst.old) × (from + (8 * n + 8) ≤ 8 * length src.now) }
    ensures { bits_of dst.new ≡ written (bits_of dst.old) (8 * at) (part (bits_of src.now) from (8 * n)) }
{
    let q = from / 8;
    let low = 8 - from % 8;
    // Kept: tried `dst[at..at + n].iter_mut().zip(src[q..].windows(2))`: a proof knows nothing of what is written through a `zip`;
    // under `.enumerate()` the index stays.
    for i in 0..n {
        dst[at + i] = octet_within(src[q + i], src[q + i + 1], low);
    }
}

// Copies `n` bits of `src` from `from` on to `dst` from `at` on: the bits up to an octet of `dst`, whole octets, and the rest.
pub fn copy_bits(dst: &mut [u8], at: usize, src: &[u8], from: usize, n: usize)
    requires n_bound { (at + n ≤ 8 * length dst.old) × (from + n ≤ 8 * length src.now) }
    requires n_bound_2 { (at + n < 2 ^ 64) × (from + n < 2 ^ 64) }
    ensures { bits_of dst.new ≡ written (bits_of dst.old) at (part (bits_of src.now) from n) }
{
    let gap = (8 - at % 8) % 8;
    if n < gap + 16 {
        copy_chunks(dst, at, src, from, n);
        return;
    }
    copy_chunks(dst, at, src, from, gap);
    let count = (n - gap) / 8 - 1;
    copy_octets(dst, (at + gap) / 8, src, from + gap, count);
    let done = gap + 8 * count;
    copy_chunks(dst, at + done, src, from + done, n - done);
}
