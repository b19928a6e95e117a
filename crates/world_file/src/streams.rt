// The standard input and output, by one call of the system at a time.
use crate::Files;
use std::io::{Read, Write};
use world::{Failed, Sink, Source, World};

impl Source for Files {
    ghost use Rattle.world.specs.Untold.{untold_stream};
    ghost use Rattle.world_file.specs.Rests.{AllButInputStays, all_but_input_stays};

    ghost source = { λ f. untold_stream f.source_faults };

    ghost source_rest = { AllButInputStays };

    ghost source_rest_stays = { all_but_input_stays };

    fn take(&mut self, into: &mut [u8]) -> Result<usize, Failed> {
        match self.stdin.read(into) {
            Ok(n) => Ok(n),
            Err(_) => {
                self.source_faults = self.source_faults.saturating_add(1);
                Err(Failed)
            }
        }
    }
}

impl Sink for Files {
    ghost use Rattle.world.specs.Untold.{untold_stream};
    ghost use Rattle.world_file.specs.Rests.{AllButOutputStays, all_but_output_stays};

    ghost sink = { λ f. untold_stream f.sink_faults };

    ghost sink_rest = { AllButOutputStays };

    ghost sink_rest_stays = { all_but_output_stays };

    fn give(&mut self, from: &[u8]) -> Result<usize, Failed> {
        match self.stdout.write(from) {
            Ok(n) if n > 0 || from.is_empty() => Ok(n),
            _ => {
                self.sink_faults = self.sink_faults.saturating_add(1);
                Err(Failed)
            }
        }
    }
}

impl World for Files {
    ghost use Rattle.world_file.specs.Rests.{same_count};

    ghost one_clock = { λ f h. absurd h };

    ghost take_is_told = { λ a b rest h. absurd h };

    ghost shelf_keeps_source = { λ a b rest. same_count rest.source };

    ghost shelf_keeps_sink = { λ a b rest. same_count rest.sink };

    ghost take_keeps_shelf = { λ a b rest. rest.shelf };

    ghost take_keeps_sink = { λ a b rest. same_count rest.sink };

    ghost give_keeps_shelf = { λ a b rest. rest.shelf };

    ghost give_keeps_source = { λ a b rest. same_count rest.source };
}
