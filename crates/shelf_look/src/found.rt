// What is told of an array that can be opened.
ghost use Rattle.std.specs.Prelude.{IfOk};
ghost use Rattle.pur_base.specs.Devices.{Geometry};
ghost use Rattle.shelf_look.specs.Opening.{IsOpeningIn};
ghost use Rattle.shelf_look.specs.Found.{IsFoundOf};

use crate::counts::{TableCounts, counts_of};
use crate::numbers::{Numbers, numbers_of};
use crate::objects::{ObjectSeen, SegmentSeen, list_seen};
use crate::units::{Units, units_of};
use crate::{Opening, Waiting};
use boot_codec::NVRAM_FLAGS;
use pur_base::NoMemory;
use std::alloc::Global;

/// What is told of an array that can be opened.
#[derive(Drop)]
pub struct Found {
    pub numbers: Numbers,
    /// The NVRAM devices that the record names and that answered.
    pub nvrams: [bool; NVRAM_FLAGS],
    /// The commands that wait in the log.
    pub waiting: Waiting,
    /// The tables of objects, mediums, addresses, segments and elisions.
    pub tables: [TableCounts; 5],
    /// The objects that the tables show, in order of creation, without those that the log makes.
    pub objects: Vec<ObjectSeen>,
    /// The data segments, by ascending id.
    pub segments: Vec<SegmentSeen>,
    /// What stands in each unit.
    pub units: Units,
}

/// What is told of an opening.
pub fn found_of(alloc: Global, opening: &Opening) -> Result<Found, NoMemory>
    requires { (shelf : Geometry) × IsOpeningIn shelf opening.now }
    ensures { IfOk result (IsFoundOf opening.now) }
{
    let numbers = numbers_of(opening);
    let tables = counts_of(opening);
    let units = units_of(alloc, opening)?;
    let mut objects = Vec::new(alloc);
    let mut segments = Vec::new(alloc);
    list_seen(&mut objects, &mut segments, opening)?;
    Ok(Found {
        numbers,
        nvrams: opening.log.members(),
        waiting: opening.waiting,
        tables,
        objects,
        segments,
        units,
    })
}
