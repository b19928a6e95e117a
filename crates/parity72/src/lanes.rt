// Sixty-four bytes at a time: a line of the processor's cache. A table is looked up sixteen bytes at a time.

ghost use Rattle.std.specs.Prelude.{◌≡◌, ℕ, ◌+◌, ◌*◌, ◌/◌, ◌%◌, ◌<◌, ◌≤◌, ◌++◌, if◌then◌else◌, nat_lt, length, slice_index, bit_and, bit_xor};
ghost use Rattle.std.specs.Simd.Lanes.{Each1};
ghost use Rattle.parity72.specs.Field.{doubled, times};

use std::simd::prelude::*;

/// The bytes of a vector.
pub const LANES: usize = 64;

// The bytes of parts of a vector. A quarter is a table too, of an entry for each four bits.
const QUARTER: usize = 16;

// Two of them.
const HALF: usize = 32;

// Three of them.
const THREE_QUARTERS: usize = 48;

// The numbers below 16: the lanes of a quarter.
const DIGITS: [u8; QUARTER] = [0, 1, 2, 3, 4, 5, 6, 7, 8, 9, 10, 11, 12, 13, 14, 15];

// The lanes of half a vector.
const HALF_LANES: [usize; HALF] = [
    0, 1, 2, 3, 4, 5, 6, 7, 8, 9, 10, 11, 12, 13, 14, 15, 16, 17, 18, 19, 20, 21, 22, 23, 24, 25,
    26, 27, 28, 29, 30, 31,
];

// The lanes of a vector.
const ALL_LANES: [usize; LANES] = [
    0, 1, 2, 3, 4, 5, 6, 7, 8, 9, 10, 11, 12, 13, 14, 15, 16, 17, 18, 19, 20, 21, 22, 23, 24, 25,
    26, 27, 28, 29, 30, 31, 32, 33, 34, 35, 36, 37, 38, 39, 40, 41, 42, 43, 44, 45, 46, 47, 48, 49,
    50, 51, 52, 53, 54, 55, 56, 57, 58, 59, 60, 61, 62, 63,
];

// x^8 as a byte.
const REDUCTION: u8 = 0x1D;

// The bit that is x^7.
const TOP_BIT: u8 = 0x80;

// The bits that choose an entry of a table.
const PLACE: u8 = 0x0F;

// How many these are.
const PLACE_BITS: u8 = 4;

/// The 64 bytes of `from` from `at` on.
#[inline(always)]
pub fn lanes_at(from: &[u8], at: usize) -> u8x64
    requires { at + LANES ≤ length from.now }
    ensures read { (k : ℕ) → k < LANES → slice_index result k ≡ slice_index from.now (at + k) }
    ensures bytes { (k : ℕ) → k < LANES → slice_index from.now (at + k) < 256 }
{
    u8x64::from_slice(&from[at..])
}

/// Writes `lanes` to the 64 bytes of `into` from `at` on.
#[inline(always)]
pub fn put_lanes(lanes: u8x64, into: &mut [u8], at: usize)
    requires { at + LANES ≤ length into.old }
    ensures below { (k : ℕ) → k < at → slice_index into.new k ≡ slice_index into.old k }
    ensures here { (k : ℕ) → k < LANES → slice_index into.new (at + k) ≡ slice_index lanes k }
    ensures above { (k : ℕ) → at + LANES ≤ k → slice_index into.new k ≡ slice_index into.old k }
{
    lanes.copy_to_slice(&mut into[at..]);
}

/// The sum of each two lanes.
#[inline(always)]
pub fn add_lanes(a: u8x64, b: u8x64) -> u8x64
    ensures { (k : ℕ) → k < LANES → slice_index result k ≡ bit_xor (slice_index a k) (slice_index b k) }
{
    a ^ b
}

// The four quarters of a vector.
#[inline(always)]
fn quarters(lanes: u8x64) -> (u8x16, u8x16, u8x16, u8x16)
    ensures first { length result.0 ≡ QUARTER }
    ensures second { length result.1 ≡ QUARTER }
    ensures third { length result.2 ≡ QUARTER }
    ensures in_order { lanes ≡ result.0 ++ (result.1 ++ (result.2 ++ result.3)) }
{
    (
        lanes.extract::<0, QUARTER>(),
        lanes.extract::<QUARTER, QUARTER>(),
        lanes.extract::<HALF, QUARTER>(),
        lanes.extract::<THREE_QUARTERS, QUARTER>(),
    )
}

// The vector of four quarters.
#[inline(always)]
fn joined(a: u8x16, b: u8x16, c: u8x16, d: u8x16) -> u8x64
    ensures { result ≡ a ++ (b ++ (c ++ d)) }
{
    let low = a.shuffle::<HALF>(b, HALF_LANES);
    let high = c.shuffle::<HALF>(d, HALF_LANES);
    low.shuffle::<LANES>(high, ALL_LANES)
}

// The top bit and the low four of each lane, by which a look-up gives 0 or an entry of the table.
#[inline(always)]
fn places(lanes: u8x16) -> u8x16
    ensures long { length result ≡ QUARTER }
    ensures each { (k : ℕ) → k < QUARTER → slice_index result k ≡ bit_and (slice_index lanes k) 0x8F }
{
    lanes & u8x16::splat(TOP_BIT | PLACE)
}

// 1D at each lane below 128, and 0 at the others. The mask costs nothing: a look-up reads no other bits,
// and where the mask stands at each quarter, the compiler leaves it out.
#[inline(always)]
fn reductions_left_out(lanes: u8x64) -> u8x64
    ensures long { length result ≡ LANES }
    ensures each { (k : ℕ) → k < LANES
        → slice_index result k ≡ if nat_lt (slice_index lanes k) 128 then 0x1D else 0 }
{
    let (a, b, c, d) = quarters(lanes);
    let a = places(a);
    let b = places(b);
    let c = places(c);
    let d = places(d);
    u8x64::splat(REDUCTION).swizzle_dyn_within::<QUARTER>(joined(a, b, c, d))
}

/// The sum of two times each lane and 1D, which is cheaper than `double_lanes`: one look-up in place of a
/// comparison and a mask. Who sums up such doublings takes the sum of what they added off at the end.
#[inline(always)]
pub fn double_lanes_and_1d(lanes: u8x64) -> u8x64
    ensures { (k : ℕ) → k < LANES → slice_index result k ≡ bit_xor (doubled (slice_index lanes k)) 0x1D }
{
    (lanes + lanes) ^ reductions_left_out(lanes)
}

/// Two times each lane.
#[inline(always)]
pub fn double_lanes(lanes: u8x64) -> u8x64
    ensures { (k : ℕ) → k < LANES → slice_index result k ≡ doubled (slice_index lanes k) }
{
    add_lanes(double_lanes_and_1d(lanes), u8x64::splat(REDUCTION))
}

// Two times each lane of a quarter.
#[inline(always)]
fn double_quarter(lanes: u8x16) -> u8x16
    ensures { (k : ℕ) → k < QUARTER → slice_index result k ≡ doubled (slice_index lanes k) }
{
    let carry = lanes
        .simd_ge(u8x16::splat(TOP_BIT))
        .select(u8x16::splat(REDUCTION), u8x16::splat(0));
    (lanes + lanes) ^ carry
}

// `factor` times each lane of a quarter, bit by bit.
#[inline(always)]
fn multiply_quarter(lanes: u8x16, factor: u8) -> u8x16
    ensures { (k : ℕ) → k < QUARTER → slice_index result k ≡ times (slice_index lanes k) factor }
{
    let mut sum = u8x16::splat(0);
    let mut power = lanes;
    let mut rest = factor;
    for _k in 0..8u8 {
        if rest % 2 == 1 {
            sum ^= power;
        }
        power = double_quarter(power);
        rest /= 2;
    }
    sum
}

// The low four bits of each lane.
#[inline(always)]
fn low_half(lanes: u8x64) -> u8x64
    ensures long { length result ≡ LANES }
    ensures each { (k : ℕ) → k < LANES → slice_index result k ≡ slice_index lanes k % 16 }
    ensures small { Each1 (λ j. j < QUARTER) result }
{
    lanes & u8x64::splat(PLACE)
}

// The high four bits of each lane.
#[inline(always)]
fn high_half(lanes: u8x64) -> u8x64
    ensures long { length result ≡ LANES }
    ensures each { (k : ℕ) → k < LANES → slice_index result k ≡ slice_index lanes k / 16 }
    ensures small { Each1 (λ j. j < QUARTER) result }
{
    low_half(lanes >> u8x64::splat(PLACE_BITS))
}

// A table at each quarter of a vector.
#[inline(always)]
fn spread(table: u8x16) -> u8x64
    ensures { (k : ℕ) → k < LANES → slice_index result k ≡ slice_index table (k % 16) }
{
    joined(table, table, table, table)
}

/// The products of one byte by the numbers below 16 and by the multiples of 16: two of them add up to
/// the product by any byte.
#[derive(Clone, Copy)]
pub struct Products {
    pub factor: u8,
    low: u8x16,
    high: u8x16,
    ghost low_products: { (j : ℕ) → j < 16 → slice_index low j ≡ times factor j },
    ghost high_products: { (j : ℕ) → j < 16 → slice_index high j ≡ times factor (j * 16) },
}

impl Products {
    /// The tables of `factor`: the compiler computes them, where it knows the factor.
    #[inline(always)]
    pub fn of(factor: u8) -> Self
        ensures { result.factor ≡ factor }
    {
        let digits = u8x16::from_array(DIGITS);
        let low = multiply_quarter(digits, factor);
        let high = multiply_quarter(digits << u8x16::splat(PLACE_BITS), factor);
        Products { factor, low, high }
    }

    /// The factor times each lane.
    #[inline(always)]
    pub fn times_lanes(&self, lanes: u8x64) -> u8x64
        ensures { (k : ℕ) → k < LANES
            → slice_index result k ≡ times self.now.factor (slice_index lanes k) }
    {
        let low = low_half(lanes);
        let high = high_half(lanes);
        let low_table = spread(self.low);
        let high_table = spread(self.high);
        low_table.swizzle_dyn_within::<QUARTER>(low)
            ^ high_table.swizzle_dyn_within::<QUARTER>(high)
    }
}
