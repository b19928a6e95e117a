// What the devices stand for, as they are written.
ghost use Rattle.array_spec.specs.Laws.{QuietWrites, BootKeeps, StoreKeeps, NvramKeeps, FewerHold};
ghost use Rattle.array_spec.specs.LogSettling.{SettlingKeeps};

/// Writes in units that no record in use names change nothing that the devices stand for.
pub fn quiet_writes()
    ensures { QuietWrites }
{}

/// A change of boot units that lets no other record be given changes nothing.
pub fn boot_writes()
    ensures { BootKeeps }
{}

/// A store, at any moment: the devices stand for the same arrays, by the old record or the new one.
pub fn stores()
    ensures { StoreKeeps }
{}

/// A write to NVRAM: the devices stand for the arrays that each record's log then leads into.
pub fn log_writes()
    ensures { NvramKeeps }
{}

/// The log that was read is written to the NVRAM devices that answered: the devices stand for the same arrays, at every moment.
pub fn settling_the_log()
    ensures { SettlingKeeps }
{}

/// Tables that stand with all members stand with two fewer.
pub fn two_fewer_hold()
    ensures { FewerHold }
{}
