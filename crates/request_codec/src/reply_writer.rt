// The writer of replies.
ghost use Rattle.std.specs.Prelude.{◌≡◌, ◌+◌, ◌-◌, ◌≤◌, ◌++◌, [], length, IsOk, IfOk, OnErr};
ghost use Rattle.pur_base.specs.Replies.{line_text, entry_text, sectors_text};
ghost use Rattle.line_input.specs.Calls.{Went};
ghost use Rattle.request_codec.specs.Writing.{Gave, Goes, Extends};
ghost use Rattle.line_input.specs.declared.buffer.TheConstants.{BUFFER_BYTES};

use crate::reply_lines::{Line, push_entry, push_reply};
use arrayvec::ArrayVec;
use line_input::{BUFFER_BYTES, zeros};
use pur_base::{Name, NoMemory, Reply, Sector};
use std::alloc::Global;
use std::marker::Model;
use world::{Failed, Sink};

/// Writes replies to a sink, gathered in a buffer of 64 KiB. Contracts see the bytes that are pending.
#[derive(Drop)]
pub struct ReplyWriter {
    buffer: Vec<u8>,
    len: usize,
}

impl Model for ReplyWriter {
    ghost use Rattle.std.specs.Prelude.{List, ℕ, take};
    ghost use Rattle.request_codec.specs.Writing.{HasRoom};

    ghost Value = { List ℕ };

    ghost view = { λ w. take w.len w.buffer.items };

    ghost invariant = { λ w. HasRoom w.buffer.items w.len };
}

/// Gives all the bytes as they stand, in as few calls as the sink allows.
pub fn give_all<K: Sink>(bytes: &[u8], sink: &mut K) -> Result<(), Failed>
    ensures gave { (K.sink sink.old).honest → Gave result (K.sink sink.old).bytes (K.sink sink.new).bytes bytes.now }
    ensures went { Went K.sink K.sink_rest result sink.old sink.new }
{
    let mut given = 0;
    'pieces: while given < bytes.len() {
        let count = sink.give(&bytes[given..])?;
        given += count;
    }
    Ok(())
}

impl ReplyWriter {
    /// A writer with nothing pending. What it allocates it allocates here.
    pub fn new(alloc: Global) -> Result<ReplyWriter, NoMemory>
        ensures { IfOk result (λ w. w ≡ []) }
    {
        let buffer = zeros(alloc, BUFFER_BYTES)?;
        Ok(ReplyWriter { buffer, len: 0 })
    }

    /// How many bytes more fit.
    fn room(&self) -> usize
        ensures { result + length self.now ≡ BUFFER_BYTES }
    {
        BUFFER_BYTES - self.len
    }

    /// Puts a text that fits behind what is pending.
    fn append(&mut self, text: &[u8])
        requires { length self.old + length text.now ≤ BUFFER_BYTES }
        ensures { self.new ≡ self.old ++ text.now }
    {
        let end = self.len + text.len();
        self.buffer[self.len..end].copy_from_slice(text);
        self.len = end;
    }

    /// Gives what is pending. At an error what wasn't given is dropped.
    pub fn flush<K: Sink>(&mut self, sink: &mut K) -> Result<(), Failed>
        ensures gave { (K.sink sink.old).honest → Goes result (K.sink sink.old).bytes self.old [] (K.sink sink.new).bytes self.new }
        ensures emptied { self.new ≡ [] }
        ensures extends { (K.sink sink.old).honest → Extends (K.sink sink.old).bytes (K.sink sink.new).bytes }
        ensures went { Went K.sink K.sink_rest result sink.old sink.new }
    {
        let count = self.len;
        self.len = 0;
        give_all(&self.buffer[..count], sink)
    }

    /// Puts a text behind what is pending. Where the buffer gets full it is given.
    fn put<K: Sink>(&mut self, text: &[u8], sink: &mut K) -> Result<(), Failed>
        requires { length text.now ≤ BUFFER_BYTES }
        ensures gave { (K.sink sink.old).honest → Goes result (K.sink sink.old).bytes self.old text.now (K.sink sink.new).bytes self.new }
        ensures gathered { length self.old + length text.now ≤ BUFFER_BYTES → IsOk result × (self.new ≡ self.old ++ text.now) × (sink.new ≡ sink.old) }
        ensures emptied { OnErr result (self.new ≡ []) }
        ensures extends { (K.sink sink.old).honest → Extends (K.sink sink.old).bytes (K.sink sink.new).bytes }
        ensures went { Went K.sink K.sink_rest result sink.old sink.new }
    {
        let room = self.room();
        if text.len() <= room {
            self.append(text);
            return Ok(());
        }
        self.append(&text[..room]);
        self.flush(sink)?;
        self.append(&text[room..]);
        Ok(())
    }

    fn put_sectors<K: Sink>(&mut self, sectors: &[Sector], sink: &mut K) -> Result<(), Failed>
        ensures gave { (K.sink sink.old).honest → Goes result (K.sink sink.old).bytes self.old (sectors_text sectors.now) (K.sink sink.new).bytes self.new }
        ensures gathered { length self.old + length (sectors_text sectors.now) ≤ BUFFER_BYTES → IsOk result × (self.new ≡ self.old ++ (sectors_text sectors.now)) × (sink.new ≡ sink.old) }
        ensures emptied { OnErr result (self.new ≡ []) }
        ensures extends { (K.sink sink.old).honest → Extends (K.sink sink.old).bytes (K.sink sink.new).bytes }
        ensures went { Went K.sink K.sink_rest result sink.old sink.new }
    {
        for sector in sectors {
            self.put(sector.as_bytes(), sink)?;
        }
        Ok(())
    }

    /// Writes the first line of a reply, and the sectors behind it. What fits in the buffer is only gathered. At an error what is pending is dropped.
    pub fn write_reply<K: Sink>(
        &mut self,
        reply: &Reply,
        sectors: &[Sector],
        sink: &mut K,
    ) -> Result<(), Failed>
        ensures gave { (K.sink sink.old).honest →
            Goes result (K.sink sink.old).bytes self.old (line_text reply.now ++ sectors_text sectors.now) (K.sink sink.new).bytes self.new }
        ensures gathered { length self.old + length (line_text reply.now ++ sectors_text sectors.now) ≤ BUFFER_BYTES → IsOk result × (self.new ≡ self.old ++ (line_text reply.now ++ sectors_text sectors.now)) × (sink.new ≡ sink.old) }
        ensures emptied { OnErr result (self.new ≡ []) }
        ensures extends { (K.sink sink.old).honest → Extends (K.sink sink.old).bytes (K.sink sink.new).bytes }
        ensures went { Went K.sink K.sink_rest result sink.old sink.new }
    {
        let mut line: Line = ArrayVec::new();
        push_reply(&mut line, reply);
        self.put(line.as_slice(), sink)?;
        self.put_sectors(sectors, sink)
    }

    /// Writes one line of the names: a volume or snapshot of that many sectors. At an error what is pending is dropped.
    pub fn write_entry<K: Sink>(
        &mut self,
        name: &Name,
        snapshot: bool,
        sectors: u64,
        sink: &mut K,
    ) -> Result<(), Failed>
        ensures gave { (K.sink sink.old).honest →
            Goes result (K.sink sink.old).bytes self.old (entry_text name.now snapshot sectors) (K.sink sink.new).bytes self.new }
        ensures gathered { length self.old + length (entry_text name.now snapshot sectors) ≤ BUFFER_BYTES → IsOk result × (self.new ≡ self.old ++ (entry_text name.now snapshot sectors)) × (sink.new ≡ sink.old) }
        ensures emptied { OnErr result (self.new ≡ []) }
        ensures extends { (K.sink sink.old).honest → Extends (K.sink sink.old).bytes (K.sink sink.new).bytes }
        ensures went { Went K.sink K.sink_rest result sink.old sink.new }
    {
        let mut line: Line = ArrayVec::new();
        push_entry(&mut line, name, snapshot, sectors);
        self.put(line.as_slice(), sink)
    }
}
