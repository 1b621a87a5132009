// Cells of the SDU store: 256 octets each, most significant bit first.
#![tactic(auto)]

ghost use Rattle.std.specs.Prelude.{◌≡◌, ◌+◌, ◌*◌, ◌<◌, ◌≤◌, length, get_or, drop};
ghost use Rattle.std.proofs.Math.Seq.{paste};
ghost use Rattle.sizes.specs.Sizes.{cell_octets, sdu_bits};
ghost use Rattle.dl_sdu_store.specs.Cells.{all_zero, clean_past, cell_of, first_bits};

use sizes::CELL_OCTETS;

// Whether each octet is 0.
// Kept: a fold by `|`, which goes in wide steps: `all`, which stops at the first that is not, took 13 times as long (of 600 octets 234 ns against 17).
// Kept: beside that of sched_words over words: one for both would be a trait with the law of `|`, for two functions of one line.
fn all_zero(s: &[u8]) -> bool
    ensures { result ≡ all_zero s.now }
{
    s.iter().fold(0, |acc, &x| acc | x) == 0
}

// Whether all bits of a cell are zero.
// Kept: no `cell_is_clean(cell, 0)`: that looks at one octet apart, and a whole cell goes in wide steps with no octet left over.
pub fn cell_is_zero(cell: &[u8]) -> bool
    ensures { result ≡ clean_past 0 cell.now }
{
    all_zero(cell)
}

// Whether each octet is 0.
// Kept: beside `all_zero`, which goes octet by octet over what is left behind its wide steps: here the last 32 are looked at twice and none is left.
fn all_zero_in_steps(s: &[u8]) -> bool
    ensures { result ≡ all_zero s.now }
{
    if s.len() < 32 {
        return all_zero(s);
    }
    let end = s.len() / 32 * 32;
    let last = s.len() - 32;
    all_zero(&s[..end]) & all_zero(&s[last..])
}

// Whether the bits of a cell past the first `bits` are zero.
pub fn cell_is_clean(cell: &[u8], bits: u16) -> bool
    ensures { result ≡ clean_past bits cell.now }
{
    let n = bits as usize;
    let k = n / 8;
    if cell.len() <= k {
        return true;
    }
    let low = cell[k] << (n % 8);
    let rest = k + 1;
    (low == 0) & all_zero_in_steps(&cell[rest..])
}

// The octet at `whole` with only its first `rest` bits.
fn edge(sdu: &[u8], whole: usize, rest: usize) -> u8
    requires { (8 * whole + rest ≤ 8 * length sdu.now) × (rest < 8) }
    ensures { result ≡ first_bits rest (get_or sdu.now whole 0) }
{
    if rest == 0 {
        return 0;
    }
    let k = 8 - rest;
    (sdu[whole] >> k) << k
}

// Writes a cell: the first `bits` bits of an SDU, then zeros.
// Kept: the store with where the cell begins, since its contract and its caller's speak of the store.
pub fn write_cell(store: &mut [u8], base: usize, sdu: &[u8], bits: usize)
    requires { (base + cell_octets ≤ length store.old) × (bits ≤ sdu_bits) × (bits ≤ 8 * length sdu.now) }
    ensures { store.new ≡ paste store.old base (cell_of bits sdu.now) cell_octets }
{
    let whole = bits / 8;
    store[base..base + whole].copy_from_slice(&sdu[..whole]);
    if whole == CELL_OCTETS {
        return;
    }
    store[base + whole] = edge(sdu, whole, bits % 8);
    store[base + (whole + 1)..base + CELL_OCTETS].fill(0);
}
