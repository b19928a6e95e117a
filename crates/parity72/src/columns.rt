// Sixty-four bytes of each shard at a time.

ghost use Rattle.std.specs.Prelude.{◌≡◌, ℕ, ◌+◌, ◌<◌, ◌≤◌, length, slice_index};
ghost use Rattle.parity72.specs.Parity.{IsRead, shard_of, p_of, q_of};
ghost use Rattle.parity72.specs.Recovery.{both_of, column_of, filled, weighted, without};

use crate::lanes::{LANES, add_lanes, double_lanes_and_1d, lanes_at};
use crate::layout::{DATA_SHARDS, P, SHARD_BYTES};
use std::simd::prelude::*;

// What Horner's rule adds to the sum over seven shards, where each of its six doublings adds 1D.
const ADDED: u8 = 0xF1;

/// P and Q of the 64 bytes of the first seven shards from `at` on: their sum, and by Horner's rule from
/// the last shard down the sum of two to the i times the i-th.
#[inline(always)]
pub fn parities_at(shards: &[[u8; SHARD_BYTES]], at: usize) -> (u8x64, u8x64)
    requires seven { DATA_SHARDS ≤ length shards.now }
    requires room { at + LANES ≤ SHARD_BYTES }
    ensures was_read { IsRead 7 shards.now at (at + LANES) }
    ensures p { (k : ℕ) → k < LANES → slice_index result.0 k ≡ p_of shards.now (at + k) }
    ensures q { (k : ℕ) → k < LANES → slice_index result.1 k ≡ q_of shards.now (at + k) }
{
    let mut i = DATA_SHARDS - 1;
    let mut p = lanes_at(&shards[i], at);
    let mut q = p;
    while i > 0 {
        i -= 1;
        let lanes = lanes_at(&shards[i], at);
        p = add_lanes(lanes, p);
        q = add_lanes(lanes, double_lanes_and_1d(q));
    }
    (p, add_lanes(q, u8x64::splat(ADDED)))
}

// The 64 bytes of shard `i` from `at` on, or zeros where it is `a` or `b`.
#[inline(always)]
fn known_at(shards: &[[u8; SHARD_BYTES]], a: usize, b: usize, i: usize, at: usize) -> u8x64
    requires i_in { i < length shards.now }
    requires room { at + LANES ≤ SHARD_BYTES }
    ensures known { (k : ℕ) → k < LANES
        → slice_index result k ≡ without a b (column_of shards.now (at + k)) i }
    ensures bytes { (k : ℕ) → k < LANES → without a b (column_of shards.now (at + k)) i < 256 }
{
    let is_lost = i == a || i == b;
    if is_lost {
        u8x64::splat(0)
    } else {
        lanes_at(&shards[i], at)
    }
}

/// What the 64 bytes of shards `a` and `b` from `at` on add up to: the sum of P and the data shards but
/// these. With Q as `b` it is shard `a`.
#[inline(always)]
pub fn both_at(shards: &[[u8; SHARD_BYTES]], a: usize, b: usize, at: usize) -> u8x64
    requires with_p { P < length shards.now }
    requires room { at + LANES ≤ SHARD_BYTES }
    ensures sizes { (i : ℕ) → i < length shards.now → length (shard_of shards.now i) ≡ SHARD_BYTES }
    ensures sum { (k : ℕ) → k < LANES
        → slice_index result k ≡ both_of a b (column_of shards.now (at + k)) }
{
    let mut sum = u8x64::splat(0);
    let mut i = P + 1;
    while i > 0 {
        i -= 1;
        sum = add_lanes(known_at(shards, a, b, i, at), sum);
    }
    sum
}

// `both` for shard `a`, nothing for shard `b`, and else the 64 bytes of shard `i` from `at` on.
#[inline(always)]
fn filled_at(
    shards: &[[u8; SHARD_BYTES]],
    a: usize,
    b: usize,
    both: u8x64,
    i: usize,
    at: usize,
) -> u8x64
    requires i_in { i < length shards.now }
    requires room { at + LANES ≤ SHARD_BYTES }
    requires both_is { (k : ℕ) → k < LANES
        → slice_index both k ≡ both_of a b (column_of shards.now (at + k)) }
    ensures filled { (k : ℕ) → k < LANES
        → slice_index result k ≡ filled a b (column_of shards.now (at + k)) i }
    ensures bytes { (k : ℕ) → k < LANES → filled a b (column_of shards.now (at + k)) i < 256 }
{
    if i == a {
        both
    } else {
        known_at(shards, a, b, i, at)
    }
}

/// Q of the 64 bytes from `at` on of the first seven shards, with `both` for shard `a` and nothing for
/// shard `b`.
#[inline(always)]
pub fn filled_q_at(
    shards: &[[u8; SHARD_BYTES]],
    a: usize,
    b: usize,
    both: u8x64,
    at: usize,
) -> u8x64
    requires seven { DATA_SHARDS ≤ length shards.now }
    requires room { at + LANES ≤ SHARD_BYTES }
    requires both_is { (k : ℕ) → k < LANES
        → slice_index both k ≡ both_of a b (column_of shards.now (at + k)) }
    ensures { (k : ℕ) → k < LANES
        → slice_index result k ≡ weighted (filled a b (column_of shards.now (at + k))) }
{
    let mut i = DATA_SHARDS - 1;
    let mut sum = filled_at(shards, a, b, both, i, at);
    while i > 0 {
        i -= 1;
        let lanes = filled_at(shards, a, b, both, i, at);
        sum = add_lanes(lanes, double_lanes_and_1d(sum));
    }
    add_lanes(sum, u8x64::splat(ADDED))
}
