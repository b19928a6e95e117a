// Lost shards, by what P and Q tell of them.

ghost use Rattle.std.specs.Prelude.{◌≡◌, ◌≢◌, ℕ, ◌<◌, ◌≤◌, ◌∷◌, [], List, All, AllPairs};
ghost use Rattle.std.specs.List.{Contains};
ghost use Rattle.parity72.specs.Parity.{IsCodeword, shard_of};
ghost use Rattle.parity72.specs.Recovery.{AgreesOutside, Restores, weight_of};

use crate::bytes::{div, power_of_two};
use crate::columns::{both_at, filled_q_at};
use crate::encoding::encode_again;
use crate::lanes::{LANES, Products, add_lanes, lanes_at, put_lanes};
use crate::layout::{BLOCKS, DATA_SHARDS, P, Q, SHARD_BYTES, SHARDS};
use arrayvec::ArrayVec;

// The data shards, as a number of a lost shard.
const DATA: u8 = DATA_SHARDS as u8;

// P, as a number of a lost shard.
const P_NUMBER: u8 = P as u8;

// What Q multiplies data shard `a` by, and 0 for P.
#[inline(always)]
fn weight_of(a: u8) -> u8
    ensures { result ≡ weight_of a }
{
    if a < DATA { power_of_two(a) } else { 0 }
}

// Data shard `a`, in one pass over eight: what P and the other data shards add up to.
#[inline(always)]
fn correct_data(shards: &mut [[u8; SHARD_BYTES]; SHARDS], a: usize)
    requires { a < DATA_SHARDS }
    ensures { Restores (a ∷ []) shards.old shards.new }
{
    for block in 0..BLOCKS {
        let at = block * LANES;
        let data = both_at(shards, a, Q, at);
        put_lanes(data, &mut shards[a], at);
    }
}

// The same and Q, in one pass over nine.
#[inline(always)]
fn correct_data_and_q(shards: &mut [[u8; SHARD_BYTES]; SHARDS], a: usize)
    requires { a < DATA_SHARDS }
    ensures { Restores (a ∷ 8 ∷ []) shards.old shards.new }
{
    for block in 0..BLOCKS {
        let at = block * LANES;
        let data = both_at(shards, a, Q, at);
        let q = filled_q_at(shards, a, Q, data, at);
        put_lanes(data, &mut shards[a], at);
        put_lanes(q, &mut shards[Q], at);
    }
}

// A data shard `b`, and another or P, which is `a`, in one pass over nine. By P they add up to `both`.
// With `both` in the place of `a` and nothing in that of `b`, each is wrong by what `b` was, so that Q's
// syndrome is a multiple of that, and `by` undoes it.
#[inline(always)]
fn correct_pair(shards: &mut [[u8; SHARD_BYTES]; SHARDS], a: usize, b: usize)
    requires a_in { a ≤ P }
    requires b_in { b < DATA_SHARDS }
    requires apart { a ≢ b }
    ensures { Restores (a ∷ b ∷ []) shards.old shards.new }
{
    let by = div(1, weight_of(a as u8) ^ power_of_two(b as u8));
    let products = Products::of(by);
    for block in 0..BLOCKS {
        let at = block * LANES;
        let both = both_at(shards, a, b, at);
        let q = filled_q_at(shards, a, b, both, at);
        let syndrome = add_lanes(q, lanes_at(&shards[Q], at));
        let second = products.times_lanes(syndrome);
        put_lanes(second, &mut shards[b], at);
        put_lanes(add_lanes(both, second), &mut shards[a], at);
    }
}

// A data shard `b`, and another or P, with a loop for each pair whose first is the smaller or P: where the
// compiler knows the two numbers, it leaves out what is lost and the tests for it, and computes the factor.
fn recover_pair(shards: &mut [[u8; SHARD_BYTES]; SHARDS], a: u8, b: u8)
    requires a_in { a ≤ P }
    requires b_in { b < DATA_SHARDS }
    requires apart { a ≢ b }
    ensures { Restores (a ∷ b ∷ []) shards.old shards.new }
{
    match (a, b) {
        (0, 1) => correct_pair(shards, 0, 1),
        (0, 2) => correct_pair(shards, 0, 2),
        (0, 3) => correct_pair(shards, 0, 3),
        (0, 4) => correct_pair(shards, 0, 4),
        (0, 5) => correct_pair(shards, 0, 5),
        (0, 6) => correct_pair(shards, 0, 6),
        (1, 2) => correct_pair(shards, 1, 2),
        (1, 3) => correct_pair(shards, 1, 3),
        (1, 4) => correct_pair(shards, 1, 4),
        (1, 5) => correct_pair(shards, 1, 5),
        (1, 6) => correct_pair(shards, 1, 6),
        (2, 3) => correct_pair(shards, 2, 3),
        (2, 4) => correct_pair(shards, 2, 4),
        (2, 5) => correct_pair(shards, 2, 5),
        (2, 6) => correct_pair(shards, 2, 6),
        (3, 4) => correct_pair(shards, 3, 4),
        (3, 5) => correct_pair(shards, 3, 5),
        (3, 6) => correct_pair(shards, 3, 6),
        (4, 5) => correct_pair(shards, 4, 5),
        (4, 6) => correct_pair(shards, 4, 6),
        (5, 6) => correct_pair(shards, 5, 6),
        (7, 0) => correct_pair(shards, 7, 0),
        (7, 1) => correct_pair(shards, 7, 1),
        (7, 2) => correct_pair(shards, 7, 2),
        (7, 3) => correct_pair(shards, 7, 3),
        (7, 4) => correct_pair(shards, 7, 4),
        (7, 5) => correct_pair(shards, 7, 5),
        (7, 6) => correct_pair(shards, 7, 6),
        _ => correct_pair(shards, a as usize, b as usize),
    }
}

// Two data shards.
fn recover_two_data(shards: &mut [[u8; SHARD_BYTES]; SHARDS], first: u8, second: u8)
    requires first_in { first < DATA_SHARDS }
    requires second_in { second < DATA_SHARDS }
    requires apart { first ≢ second }
    ensures { Restores (first ∷ second ∷ []) shards.old shards.new }
{
    if first < second {
        recover_pair(shards, first, second);
    } else {
        recover_pair(shards, second, first);
    }
}

// A data shard and Q, with a loop for each.
fn recover_data_and_q(shards: &mut [[u8; SHARD_BYTES]; SHARDS], i: u8)
    requires { i < DATA_SHARDS }
    ensures { Restores (i ∷ 8 ∷ []) shards.old shards.new }
{
    match i {
        0 => correct_data_and_q(shards, 0),
        1 => correct_data_and_q(shards, 1),
        2 => correct_data_and_q(shards, 2),
        3 => correct_data_and_q(shards, 3),
        4 => correct_data_and_q(shards, 4),
        5 => correct_data_and_q(shards, 5),
        6 => correct_data_and_q(shards, 6),
        _ => correct_data_and_q(shards, i as usize),
    }
}

// P or Q alone: both are written, and the other is put back.
fn recover_parity(shards: &mut [[u8; SHARD_BYTES]; SHARDS], i: u8)
    requires from { 7 ≤ i }
    requires to { i < SHARDS }
    ensures { Restores (i ∷ []) shards.old shards.new }
{
    let other = P + Q - i as usize;
    let was = shards[other];
    encode_again(shards);
    shards[other] = was;
}

// One shard, with a loop for each of data.
fn recover_one(shards: &mut [[u8; SHARD_BYTES]; SHARDS], i: u8)
    requires { i < SHARDS }
    ensures { Restores (i ∷ []) shards.old shards.new }
{
    match i {
        0 => correct_data(shards, 0),
        1 => correct_data(shards, 1),
        2 => correct_data(shards, 2),
        3 => correct_data(shards, 3),
        4 => correct_data(shards, 4),
        5 => correct_data(shards, 5),
        6 => correct_data(shards, 6),
        _ => recover_parity(shards, i),
    }
}

fn recover_data_and_parity(shards: &mut [[u8; SHARD_BYTES]; SHARDS], i: u8, parity: u8)
    requires data_in { i < DATA_SHARDS }
    requires parity_from { 7 ≤ parity }
    requires parity_to { parity < SHARDS }
    ensures { Restores (i ∷ parity ∷ []) shards.old shards.new }
{
    if parity == P_NUMBER {
        recover_pair(shards, parity, i);
    } else {
        recover_data_and_q(shards, i);
    }
}

fn recover_two(shards: &mut [[u8; SHARD_BYTES]; SHARDS], i: u8, j: u8)
    requires i_in { i < SHARDS }
    requires j_in { j < SHARDS }
    requires apart { i ≢ j }
    ensures { Restores (i ∷ j ∷ []) shards.old shards.new }
{
    if i < DATA && j < DATA {
        recover_two_data(shards, i, j);
    } else if i < DATA {
        recover_data_and_parity(shards, i, j);
    } else if j < DATA {
        recover_data_and_parity(shards, j, i);
    } else {
        encode_again(shards);
    }
}

/// Recovers the lost of nine shards of 4096 bytes, of which 7 is P and 8 is Q, whatever the lost ones
/// hold, in one pass over the shards.
/// H. P. Anvin, "The mathematics of RAID-6".
pub fn recover(shards: &mut [[u8; SHARD_BYTES]; SHARDS], lost: &ArrayVec<u8, 2>)
    requires numbers { All (λ i. i < SHARDS) lost.now.items }
    requires distinct { AllPairs (λ i j. i ≢ j) lost.now.items }
    ensures restored { (whole : List (List ℕ)) → IsCodeword whole → AgreesOutside lost.now.items shards.old whole
        → shards.new ≡ whole }
    // Codeword or not.
    ensures kept { (i : ℕ) → i < 9 → ¬ Contains lost.now.items i → shard_of shards.new i ≡ shard_of shards.old i }
{
    match lost.as_slice() {
        [] => {}
        [i] => recover_one(shards, *i),
        [i, j, ..] => recover_two(shards, *i, *j),
    }
}
