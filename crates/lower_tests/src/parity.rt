// Vectors of the parities from outside, and each kind of loss once.

ghost use Rattle.std.specs.Prelude.{◌<◌, ◌≢◌};

use arrayvec::ArrayVec;
use parity72::{DATA_SHARDS, SHARD_BYTES, SHARDS, encode, recover};

// The places of the parities, behind the data.
const P: usize = 7;

const Q: usize = 8;

// The nine shards of data shards that are each full of one byte.
fn encoded(bytes: [u8; DATA_SHARDS]) -> [[u8; SHARD_BYTES]; SHARDS] {
    let mut data = [[0; SHARD_BYTES]; DATA_SHARDS];
    let mut shards = [[0; SHARD_BYTES]; SHARDS];
    for i in 0..DATA_SHARDS {
        data[i] = [bytes[i]; SHARD_BYTES];
        shards[i] = [bytes[i]; SHARD_BYTES];
    }
    let mut p = [0; SHARD_BYTES];
    let mut q = [0; SHARD_BYTES];
    encode(&data, &mut p, &mut q);
    shards[P] = p;
    shards[Q] = q;
    shards
}

// Whether the shards come back after shard `i` is written over.
fn comes_back(whole: &[[u8; SHARD_BYTES]; SHARDS], i: u8) -> bool
    requires { i < SHARDS }
{
    let mut shards = *whole;
    shards[i as usize] = [0xA5; SHARD_BYTES];
    let mut lost: ArrayVec<u8, 2> = ArrayVec::new();
    lost.push(i);
    recover(&mut shards, &lost);
    shards == *whole
}

// Whether the shards come back after shards `i` and `j` are written over.
fn come_back(whole: &[[u8; SHARD_BYTES]; SHARDS], i: u8, j: u8) -> bool
    requires i_in { i < SHARDS }
    requires j_in { j < SHARDS }
    requires apart { i ≢ j }
{
    let mut shards = *whole;
    shards[i as usize] = [0xA5; SHARD_BYTES];
    shards[j as usize] = [0x5A; SHARD_BYTES];
    let mut lost: ArrayVec<u8, 2> = ArrayVec::new();
    lost.push(i);
    lost.push(j);
    recover(&mut shards, &lost);
    shards == *whole
}

/// Whether P and Q are full of these bytes.
fn have_parities(shards: &[[u8; SHARD_BYTES]; SHARDS], p: u8, q: u8) -> bool {
    shards[P] == [p; SHARD_BYTES] && shards[Q] == [q; SHARD_BYTES]
}

fn parities_of(bytes: [u8; DATA_SHARDS], p: u8, q: u8) -> bool {
    let shards = encoded(bytes);
    have_parities(&shards, p, q) && come_back(&shards, 0, 6)
}

/// Whether those of shards full of 1 to 7 are right, and each kind of loss comes back.
fn parities_and_losses() -> bool {
    let shards = encoded([1, 2, 3, 4, 5, 6, 7]);
    have_parities(&shards, 0, 0x64)
        && comes_back(&shards, 3)
        && comes_back(&shards, 7)
        && comes_back(&shards, 8)
        && come_back(&shards, 2, 5)
        && come_back(&shards, 5, 2)
        && come_back(&shards, 7, 4)
        && come_back(&shards, 4, 8)
        && come_back(&shards, 8, 7)
}

#[test]
fn each_holds(rt: HostRuntime) {
    assert!(rt;
        parities_of([1, 0, 0, 0, 0, 0, 0], 1, 1)
            && parities_of([0, 0, 0, 0, 0, 0, 0x80], 0x80, 0x87)
            && parities_and_losses()
    );
}
