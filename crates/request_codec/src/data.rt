// The data of a request, sector by sector.
ghost use Rattle.std.specs.Prelude.{◌≡◌, ◌+◌, ◌*◌, ◌<◌, ◌≤◌, ◌++◌, length, take, vec_len, vec_capacity, IfOk, OnOk, OnErr};
ghost use Rattle.arrayvec.specs.ArrayVec.{array_vec_len};
ghost use Rattle.line_input.specs.Ahead.{Tells, budget};
ghost use Rattle.line_input.specs.Reading.{Totals, Unfinished};
ghost use Rattle.line_input.specs.Asking.{Asks, Stops};
ghost use Rattle.request_codec.specs.Data.{AddsSector, ReadsData};

use arrayvec::ArrayVec;
use line_input::{Input, Refill};
use pur_base::{REQUEST_SECTORS, SECTOR_BYTES, Sector};
use world::{Failed, Source};

/// What ended the reading of data.
#[derive(Clone, Copy)]
pub enum DataEnd {
    Whole,
    Cut,
    Limit,
}

fn extend(body: &mut ArrayVec<u8, SECTOR_BYTES>, piece: &[u8])
    requires { array_vec_len body.old + length piece.now ≤ SECTOR_BYTES }
    ensures { body.new.items ≡ body.old.items ++ piece.now }
{
    if body.try_extend_from_slice(piece).is_err() {
        unreachable!()
    }
}

fn sector_of(body: ArrayVec<u8, SECTOR_BYTES>) -> Sector
    requires { array_vec_len body ≡ SECTOR_BYTES }
    ensures { result ≡ body.items }
{
    match body.into_inner() {
        Ok(bytes) => Sector::new(bytes),
        Err(_) => unreachable!(),
    }
}

/// The sector that the first bytes are.
fn first_sector(bytes: &[u8]) -> Sector
    requires { SECTOR_BYTES ≤ length bytes.now }
    ensures { result ≡ take SECTOR_BYTES bytes.now }
{
    match <[u8; SECTOR_BYTES]>::try_from(&bytes[..SECTOR_BYTES]) {
        Ok(bytes) => Sector::new(bytes),
        Err(_) => unreachable!(),
    }
}

/// Reads one sector more, whose bytes come in pieces.
fn read_split_sector<S: Source>(
    input: &mut Input,
    sectors: &mut Vec<Sector>,
    source: &mut S,
) -> Result<DataEnd, Failed>
    requires { vec_len sectors.old < vec_capacity sectors.old }
    ensures told { IfOk result (λ found. Tells input.old (S.source source.old) → Tells input.new (S.source source.new)
        × AddsSector found sectors.old.items sectors.new.items (input.old.pending ++ (S.source source.old).bytes) (input.new.pending ++ (S.source source.new).bytes)) }
    ensures len { IfOk result (λ found. found ≡ DataEnd.Whole → length sectors.new.items ≡ length sectors.old.items + 1) }
    ensures capacity { vec_capacity sectors.new ≡ vec_capacity sectors.old }
    ensures total { IfOk result (λ found. Tells input.old (S.source source.old) →
        Totals (found ≡ DataEnd.Limit) input.old.taken input.new.taken (length (S.source source.old).bytes) (length (S.source source.new).bytes)) }
    ensures budget { OnOk result (budget input.new ≤ budget input.old) }
    ensures stops { IfOk result (λ found. Stops (found ≡ DataEnd.Cut) (found ≡ DataEnd.Limit) input.new) }
    ensures failed { OnErr result (Tells input.old (S.source source.old) → Tells input.new (S.source source.new)
        × Unfinished (input.old.pending ++ (S.source source.old).bytes) (S.source source.new).bytes (λ rest. length rest < SECTOR_BYTES)) }
    ensures asks { Asks S.source S.source_rest result input.old input.new source.old source.new }
{
    let mut body: ArrayVec<u8, SECTOR_BYTES> = ArrayVec::new();
    'pieces: while body.len() < SECTOR_BYTES {
        match input.ready(source)? {
            Refill::Bytes => {}
            Refill::End => return Ok(DataEnd::Cut),
            Refill::Limit => return Ok(DataEnd::Limit),
        }
        let pending = input.pending();
        let count = pending.len().min(SECTOR_BYTES - body.len());
        extend(&mut body, &pending[..count]);
        input.consume(count);
    }
    sectors.push_reserved(sector_of(body));
    Ok(DataEnd::Whole)
}

/// Reads one sector more. One that is pending whole is copied once.
fn read_sector<S: Source>(
    input: &mut Input,
    sectors: &mut Vec<Sector>,
    source: &mut S,
) -> Result<DataEnd, Failed>
    requires { vec_len sectors.old < vec_capacity sectors.old }
    ensures told { IfOk result (λ found. Tells input.old (S.source source.old) → Tells input.new (S.source source.new)
        × AddsSector found sectors.old.items sectors.new.items (input.old.pending ++ (S.source source.old).bytes) (input.new.pending ++ (S.source source.new).bytes)) }
    ensures len { IfOk result (λ found. found ≡ DataEnd.Whole → length sectors.new.items ≡ length sectors.old.items + 1) }
    ensures capacity { vec_capacity sectors.new ≡ vec_capacity sectors.old }
    ensures total { IfOk result (λ found. Tells input.old (S.source source.old) →
        Totals (found ≡ DataEnd.Limit) input.old.taken input.new.taken (length (S.source source.old).bytes) (length (S.source source.new).bytes)) }
    ensures budget { OnOk result (budget input.new ≤ budget input.old) }
    ensures stops { IfOk result (λ found. Stops (found ≡ DataEnd.Cut) (found ≡ DataEnd.Limit) input.new) }
    ensures failed { OnErr result (Tells input.old (S.source source.old) → Tells input.new (S.source source.new)
        × Unfinished (input.old.pending ++ (S.source source.old).bytes) (S.source source.new).bytes (λ rest. length rest < SECTOR_BYTES)) }
    ensures asks { Asks S.source S.source_rest result input.old input.new source.old source.new }
{
    let pending = input.pending();
    if SECTOR_BYTES <= pending.len() {
        sectors.push_reserved(first_sector(pending));
        input.consume(SECTOR_BYTES);
        return Ok(DataEnd::Whole);
    }
    read_split_sector(input, sectors, source)
}

/// Reads that many sectors in place of those before.
pub fn read_data<S: Source>(
    input: &mut Input,
    count: u8,
    sectors: &mut Vec<Sector>,
    source: &mut S,
) -> Result<DataEnd, Failed>
    requires few { count ≤ REQUEST_SECTORS }
    requires room { REQUEST_SECTORS ≤ vec_capacity sectors.old }
    ensures told { IfOk result (λ found. Tells input.old (S.source source.old) → Tells input.new (S.source source.new)
        × ReadsData found count sectors.new.items (input.old.pending ++ (S.source source.old).bytes) (input.new.pending ++ (S.source source.new).bytes)) }
    ensures len { IfOk result (λ found. found ≡ DataEnd.Whole → length sectors.new.items ≡ count) }
    ensures capacity { vec_capacity sectors.new ≡ vec_capacity sectors.old }
    ensures total { IfOk result (λ found. Tells input.old (S.source source.old) →
        Totals (found ≡ DataEnd.Limit) input.old.taken input.new.taken (length (S.source source.old).bytes) (length (S.source source.new).bytes)) }
    ensures budget { OnOk result (budget input.new ≤ budget input.old) }
    ensures stops { IfOk result (λ found. Stops (found ≡ DataEnd.Cut) (found ≡ DataEnd.Limit) input.new) }
    ensures failed { OnErr result (Tells input.old (S.source source.old) → Tells input.new (S.source source.new)
        × Unfinished (input.old.pending ++ (S.source source.old).bytes) (S.source source.new).bytes (λ rest. length rest < SECTOR_BYTES * count)) }
    ensures asks { Asks S.source S.source_rest result input.old input.new source.old source.new }
{
    sectors.clear();
    for _ in 0..count {
        match read_sector(input, sectors, source)? {
            DataEnd::Whole => {}
            DataEnd::Cut => return Ok(DataEnd::Cut),
            DataEnd::Limit => return Ok(DataEnd::Limit),
        }
    }
    Ok(DataEnd::Whole)
}
