// Replies are given.
ghost use Rattle.std.specs.Prelude.{◌≡◌, ◌<◌, ◌++◌, [], length, take, drop, OnErr};
ghost use Rattle.pur_base.specs.Plain.{Array};
ghost use Rattle.pur_base.specs.Replies.{Answer, Line, Entries, refused, line_text, sectors_text, entries_text, text};
ghost use Rattle.pur_base.specs.declared.reply.Reply.TheVariants.{Numbers};
ghost use Rattle.memory_spec.specs.Memory.{Contents, ReadsAs};
ghost use Rattle.request_codec.specs.Prelude.{Went};
ghost use Rattle.request_codec.specs.Writing.{Gave, Goes, Extends};
ghost use Rattle.array_engine.specs.Saying.{HasReply, Says};

use crate::engine::Engine;
use crate::said::Said;
use array_memory::Memory;
use pur_base::{Refusal, Reply, Sector};
use request_codec::{ReplyWriter, give_all};
use volume_ops::{entry, len};
use world::{Failed, Sink};

/// Gives a reply of one line, or of sectors behind a line.
pub fn give<K: Sink>(
    writer: &mut ReplyWriter,
    reply: &Reply,
    sectors: &[Sector],
    sink: &mut K,
) -> Result<(), Failed>
    requires { writer.old ≡ [] }
    ensures gave { (K.sink sink.old).honest → Gave result (K.sink sink.old).bytes (K.sink sink.new).bytes (line_text reply.now ++ sectors_text sectors.now) }
    ensures emptied { writer.new ≡ [] }
    ensures went { Went K.sink K.sink_rest result sink.old sink.new }
{
    writer.write_reply(reply, sectors, sink)?;
    writer.flush(sink)
}

// The text is that of each array that memory reads as.
fn write_entry_at<K: Sink>(
    writer: &mut ReplyWriter,
    memory: &Memory,
    index: usize,
    sink: &mut K,
) -> Result<(), Failed>
    ensures gave { (K.sink sink.old).honest → (contents : Contents) (array : Array) → ReadsAs contents memory.now.memory array → index < length array
        → Goes result (K.sink sink.old).bytes writer.old (entries_text (take 1 (drop index array))) (K.sink sink.new).bytes writer.new }
    ensures emptied { OnErr result (writer.new ≡ []) }
    ensures extends { (K.sink sink.old).honest → Extends (K.sink sink.old).bytes (K.sink sink.new).bytes }
    ensures went { Went K.sink K.sink_rest result sink.old sink.new }
{
    match entry(memory, index) {
        Some(object) => writer.write_entry(&object.name, object.snapshot, object.sectors, sink),
        None => Ok(()),
    }
}

fn write_entries<K: Sink>(
    writer: &mut ReplyWriter,
    memory: &Memory,
    sink: &mut K,
) -> Result<(), Failed>
    ensures gave { (K.sink sink.old).honest → (contents : Contents) (array : Array) → ReadsAs contents memory.now.memory array
        → Goes result (K.sink sink.old).bytes writer.old (entries_text array) (K.sink sink.new).bytes writer.new }
    ensures emptied { OnErr result (writer.new ≡ []) }
    ensures extends { (K.sink sink.old).honest → Extends (K.sink sink.old).bytes (K.sink sink.new).bytes }
    ensures went { Went K.sink K.sink_rest result sink.old sink.new }
{
    for index in 0..len(memory) {
        write_entry_at(writer, memory, index, sink)?;
    }
    Ok(())
}

fn write_names<K: Sink>(
    writer: &mut ReplyWriter,
    memory: &Memory,
    sink: &mut K,
) -> Result<(), Failed>
    ensures gave { (K.sink sink.old).honest → (contents : Contents) (array : Array) → ReadsAs contents memory.now.memory array
        → Goes result (K.sink sink.old).bytes writer.old (text (Entries array)) (K.sink sink.new).bytes writer.new }
    ensures emptied { OnErr result (writer.new ≡ []) }
    ensures extends { (K.sink sink.old).honest → Extends (K.sink sink.old).bytes (K.sink sink.new).bytes }
    ensures went { Went K.sink K.sink_rest result sink.old sink.new }
{
    let count = len(memory) as u64;
    writer.write_reply(&Reply::Names { count }, &[], sink)?;
    write_entries(writer, memory, sink)
}

fn give_names<K: Sink>(
    writer: &mut ReplyWriter,
    memory: &Memory,
    sink: &mut K,
) -> Result<(), Failed>
    requires { writer.old ≡ [] }
    ensures gave { (K.sink sink.old).honest → (contents : Contents) (array : Array) → ReadsAs contents memory.now.memory array
        → Gave result (K.sink sink.old).bytes (K.sink sink.new).bytes (text (Entries array)) }
    ensures emptied { writer.new ≡ [] }
    ensures went { Went K.sink K.sink_rest result sink.old sink.new }
{
    write_names(writer, memory, sink)?;
    writer.flush(sink)
}

fn give_numbers<K: Sink>(
    writer: &mut ReplyWriter,
    numbers: &[u64; 10],
    sink: &mut K,
) -> Result<(), Failed>
    requires { writer.old ≡ [] }
    ensures gave { (K.sink sink.old).honest → Gave result (K.sink sink.old).bytes (K.sink sink.new).bytes (text (Line (Numbers numbers.now))) }
    ensures emptied { writer.new ≡ [] }
    ensures went { Went K.sink K.sink_rest result sink.old sink.new }
{
    give(writer, &Reply::Numbers { numbers: *numbers }, &[], sink)
}

fn refuse<K: Sink>(writer: &mut ReplyWriter, why: Refusal, sink: &mut K) -> Result<(), Failed>
    requires { writer.old ≡ [] }
    ensures gave { (K.sink sink.old).honest → Gave result (K.sink sink.old).bytes (K.sink sink.new).bytes (text (refused why)) }
    ensures emptied { writer.new ≡ [] }
    ensures went { Went K.sink K.sink_rest result sink.old sink.new }
{
    give(writer, &Reply::Refused { why }, &[], sink)
}

impl Engine {
    /// Gives what was said: names from memory, and sectors as they stand in the buffer, behind their line.
    pub fn give<K: Sink>(
        &self,
        said: &Said,
        writer: &mut ReplyWriter,
        sink: &mut K,
    ) -> Result<(), Failed>
        requires empty { writer.old ≡ [] }
        requires there { HasReply self.now.buffers.reply.items self.now.buffers.start said.now }
        ensures gave { (K.sink sink.old).honest → (answer : Answer) → Says self.now.array.memory.memory self.now.buffers.reply.items said.now answer
            → Gave result (K.sink sink.old).bytes (K.sink sink.new).bytes (text answer) }
        ensures emptied { writer.new ≡ [] }
        ensures went { Went K.sink K.sink_rest result sink.old sink.new }
    {
        match said {
            Said::Done => give(writer, &Reply::Done, &[], sink),
            Said::Left => give(writer, &Reply::Left, &[], sink),
            Said::Idle => give(writer, &Reply::Idle, &[], sink),
            Said::Data(count) => give_all(self.buffers.reply(*count), sink),
            Said::Names => give_names(writer, &self.array.memory, sink),
            Said::Numbers(numbers) => give_numbers(writer, numbers, sink),
            Said::Refused(why) => refuse(writer, *why, sink),
        }
    }
}
