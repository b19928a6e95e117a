ghost use Rattle.std.specs.Prelude.{◌≡◌, ◌↔◌, ◌∷◌, [], true, false, map, string_bytes};
ghost use Rattle.array_server.specs.Commands.{AreCommand, IsInit, IsServe};
ghost use Rattle.array_server.specs.Made.{IsInitEnd};
ghost use Rattle.array_server.specs.Serving.{IsNeverOpened, IsServeStatus};
ghost use Rattle.session_spec.specs.Ends.{RisesIf, is_source, is_sink};
ghost use Rattle.session_spec.specs.Headline.{Survives};
ghost use Rattle.session_spec.specs.Making.{Makes};
ghost use Rattle.world.specs.Streams.{SameStream};

use crate::{init, serve};
use pur_base::Status;
use std::alloc::Global;
use world::World;

/// Whether there is one word, and it is this.
fn is_only(words: &[String], word: &str) -> bool
    ensures yes { result ≡ true → map string_bytes words.now ≡ word.now ∷ [] }
    ensures no { result ≡ false → map string_bytes words.now ≡ word.now ∷ [] → ⊥ }
{
    words.len() == 1 && words[0].as_str() == word
}

/// Does the command that the words give, in the world outside: `init` makes a new array on the blank devices of its shelf, `serve` opens the array that
/// they hold and answers the requests of its source on its sink.
pub fn array_main<W: World>(alloc: Global, words: &[String], world: &mut W) -> Status
    // The words decide, and other words touch nothing.
    ensures words { (result ≡ Status.Words) ↔ (AreCommand (map string_bytes words.now) → ⊥) }
    ensures untouched { result ≡ Status.Words → world.new ≡ world.old }

    // `serve`, over honest devices, from a source and to a sink that tell their bytes: what it does to the arrays for which the devices stand, whatever
    // fails and wherever it is stopped, and the cause of each answer and of each end.
    ensures survives { IsServe (map string_bytes words.now) → (W.shelf world.old).honest → (W.source world.old).honest → (W.sink world.old).honest
        → Survives (W.shelf world.old) (W.shelf world.new) (W.source world.old) (W.source world.new) (W.sink world.old) (W.sink world.new) result }

    // `init`: the array of nothing is made on blank devices, and told, or it says why not.
    ensures makes { IsInit (map string_bytes words.now) → (W.shelf world.old).honest → (W.sink world.old).honest
        → Makes (W.shelf world.old) (W.shelf world.new) (W.sink world.old) (W.sink world.new) result }

    // Whatever the outside tells: in which ways each ends; `init` halts exactly where a call on a device failed, and takes nothing; and where `serve` isn't
    // opened for want of memory, or for no array, it takes nothing and gives nothing.
    ensures made { IsInit (map string_bytes words.now) → IsInitEnd result (W.shelf world.old) (W.shelf world.new) }
    ensures untaken { IsInit (map string_bytes words.now) → SameStream (W.source world.old) (W.source world.new) }
    ensures served { IsServe (map string_bytes words.now) → IsServeStatus result }
    ensures unopened { IsServe (map string_bytes words.now) → IsNeverOpened result
        → SameStream (W.source world.old) (W.source world.new) × SameStream (W.sink world.old) (W.sink world.new) }

    // A source or a sink that failed ends it, whatever the devices tell.
    ensures source { RisesIf (is_source result) (W.source world.old).faults (W.source world.new).faults }
    ensures sink { RisesIf (is_sink result) (W.sink world.old).faults (W.sink world.new).faults }
{
    if is_only(words, "init") {
        return init(alloc, world);
    }
    if is_only(words, "serve") {
        return serve(alloc, world);
    }
    Status::Words
}
