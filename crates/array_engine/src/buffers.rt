// Room for what is read.
ghost use Rattle.std.specs.Prelude.{◌≡◌, ◌+◌, ◌*◌, ◌≤◌, None, Some, drop, length, replicate, IfOk, OnOk, IfErr};
ghost use Rattle.pur_base.specs.Devices.{View};
ghost use Rattle.pur_base.specs.Plain.{Array, first_cause, read_causes, sectors_of, span};
ghost use Rattle.pur_base.specs.Replies.{Sectors, text};
ghost use Rattle.pur_base.specs.declared.limits.TheConstants.{REQUEST_SECTORS, SECTOR_BYTES};
ghost use Rattle.memory_spec.specs.Memory.{Contents, IsSound, ReadsAs};
ghost use Rattle.memory_spec.specs.Tables.{facts};
ghost use Rattle.memory_spec.specs.Contents.{ContentsStand};
ghost use Rattle.volume_ops.specs.OfArray.{OfArray};
ghost use Rattle.target_io.specs.Reading.{AreReadable, ReadsOnly, ShowsDrives, LosesThree};
ghost use Rattle.target_io.specs.Targets.{IfRefused, IfLost};
ghost use Rattle.array_engine.specs.declared.buffers.TheConstants.{LINE_ROOM, REPLY_BYTES};
ghost use Rattle.array_engine.specs.Saying.{read_in, HasLine, IsDataReply};

use array_memory::Memory;
use pur_base::{Name, NoMemory, REQUEST_SECTORS, SECTOR_BYTES};
use request_codec::put_data_line;
use std::alloc::Global;
use target_io::{ReadFault, ReadRoom, read_span};
use world::Shelf;

/// Room for the line of a reply of sectors, which then stand at a place that suits a copy.
const LINE_ROOM: usize = 32;

/// Room for a reply of as many sectors as a request may ask for.
const REPLY_BYTES: usize = LINE_ROOM + SECTOR_BYTES * REQUEST_SECTORS;

/// Room for a read: what the reading of segments needs, and the reply, of which the sectors are read into their places and the line stands right in front of them.
/// `new` takes all memory.
#[derive(Drop)]
pub struct ReadBuffers {
    pub(crate) room: ReadRoom,
    pub(crate) reply: Vec<u8>,
    /// Where the reply's line begins.
    pub(crate) start: usize,
    ghost filled: { length reply.items ≡ REPLY_BYTES },
}

/// Puts the line of a reply of so many sectors in front of them. Gives where it begins.
fn put_line(reply: &mut [u8], count: u8) -> usize
    requires { LINE_ROOM ≤ length reply.old }
    ensures line { HasLine reply.new result count }
    ensures sectors { drop LINE_ROOM reply.new ≡ drop LINE_ROOM reply.old }
{
    let room = &mut reply[..LINE_ROOM];
    put_data_line(count as u64, room)
}

/// Reads as many sectors into the places behind the room for the reply's line, and puts the line in front of them. Tells where it begins.
fn read_reply<S: Shelf>(
    memory: &Memory,
    name: &Name,
    lba: u64,
    count: u8,
    missing: &[bool],
    room: &mut ReadRoom,
    reply: &mut [u8],
    start: &mut usize,
    shelf: &mut S,
) -> Result<(), ReadFault>
    requires sound { IsSound memory.now.memory }
    requires places { AreReadable (S.shelf shelf.old) (facts memory.now.memory.tables) }
    requires few { count ≤ REQUEST_SECTORS }
    requires there { length reply.old ≡ REPLY_BYTES }
    ensures reads { ReadsOnly (S.shelf shelf.old) (S.shelf shelf.new) }
    ensures rest { S.shelf_rest shelf.old shelf.new }
    ensures reply { IsDataReply reply.new start.new count }
    ensures accepted { OnOk result (OfArray memory.now.memory (λ array. first_cause (read_causes array name.now lba count) ≡ None)) }
    ensures refused { IfErr result (λ fault. IfRefused fault (λ why. OfArray memory.now.memory (λ array. first_cause (read_causes array name.now lba count) ≡ Some why))) }
    ensures sectors { (S.shelf shelf.old).honest → OnOk result ((contents : Contents) (array : Array) (view : View) → ReadsAs contents memory.now.memory array
        → ShowsDrives (S.shelf shelf.old) missing.now view → ContentsStand contents view (facts memory.now.memory.tables) → read_in count reply.new ≡ span lba count (sectors_of array name.now)) }
    ensures lost { IfErr result (λ fault. IfLost fault (LosesThree (S.shelf shelf.old) (S.shelf shelf.new) (facts memory.now.memory.tables) missing.now)) }
{
    let end = LINE_ROOM + SECTOR_BYTES * count as usize;
    let out = &mut reply[LINE_ROOM..end];
    let result = read_span(memory, name, lba, count, missing, room, out, shelf);
    *start = put_line(reply, count);
    result
}

impl ReadBuffers {
    /// Room for the reply to one request, in which nothing stands yet.
    pub fn new(alloc: Global) -> Result<ReadBuffers, NoMemory>
        ensures reply { IfOk result (λ buffers. buffers.reply.items ≡ replicate REPLY_BYTES 0) }
        ensures start { IfOk result (λ buffers. buffers.start ≡ 0) }
    {
        let room = ReadRoom::new(alloc)?;
        let reply = vec![in alloc; 0; REPLY_BYTES]?;
        Ok(ReadBuffers {
            room,
            reply,
            start: 0,
        })
    }

    /// The whole reply of so many sectors that were read.
    pub(crate) fn reply(&self, count: u8) -> &[u8]
        requires { IsDataReply self.now.reply.items self.now.start count }
        ensures { result.now ≡ text (Sectors (read_in count self.now.reply.items)) }
    {
        &self.reply[self.start..LINE_ROOM + SECTOR_BYTES * count as usize]
    }

    /// Reads sectors of an object, as many as that, or says why not. Which drives are missing is given by slot.
    pub(crate) fn read<S: Shelf>(
        &mut self,
        memory: &Memory,
        name: &Name,
        lba: u64,
        count: u8,
        missing: &[bool],
        shelf: &mut S,
    ) -> Result<(), ReadFault>
        requires sound { IsSound memory.now.memory }
        requires places { AreReadable (S.shelf shelf.old) (facts memory.now.memory.tables) }
        requires few { count ≤ REQUEST_SECTORS }
        ensures reads { ReadsOnly (S.shelf shelf.old) (S.shelf shelf.new) }
        ensures rest { S.shelf_rest shelf.old shelf.new }
        ensures reply { IsDataReply self.new.reply.items self.new.start count }
        ensures accepted { OnOk result (OfArray memory.now.memory (λ array. first_cause (read_causes array name.now lba count) ≡ None)) }
        ensures refused { IfErr result (λ fault. IfRefused fault (λ why. OfArray memory.now.memory (λ array. first_cause (read_causes array name.now lba count) ≡ Some why))) }
        ensures sectors { (S.shelf shelf.old).honest → OnOk result ((contents : Contents) (array : Array) (view : View) → ReadsAs contents memory.now.memory array
            → ShowsDrives (S.shelf shelf.old) missing.now view → ContentsStand contents view (facts memory.now.memory.tables) → read_in count self.new.reply.items ≡ span lba count (sectors_of array name.now)) }
        ensures lost { IfErr result (λ fault. IfLost fault (LosesThree (S.shelf shelf.old) (S.shelf shelf.new) (facts memory.now.memory.tables) missing.now)) }
    {
        read_reply(
            memory,
            name,
            lba,
            count,
            missing,
            &mut self.room,
            &mut self.reply,
            &mut self.start,
            shelf,
        )
    }
}
