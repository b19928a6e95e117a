// Calls on devices are counted.
use pur_base::Device;
use world_mem::{Call, What};

/// Calls on devices of one kind, those that fail among them.
#[derive(Clone, Copy)]
pub struct Counts {
    pub writes: u64,
    pub syncs: u64,
    pub reads: u64,
}

impl Counts {
    const NONE: Counts = Counts {
        writes: 0,
        syncs: 0,
        reads: 0,
    };

    fn count(&mut self, what: &What) {
        match what {
            What::Write(_, _) | What::FailedWrite(_) => self.writes = self.writes.saturating_add(1),
            What::Sync(_) | What::FailedSync(_) => self.syncs = self.syncs.saturating_add(1),
            What::Read | What::FailedRead(_) => self.reads = self.reads.saturating_add(1),
        }
    }
}

/// Calls on the NVRAM devices, and on the drives.
#[derive(Clone, Copy)]
pub struct DeviceCalls {
    pub nvram: Counts,
    pub drives: Counts,
}

impl DeviceCalls {
    fn count(&mut self, device: Device, what: &What) {
        match device {
            Device::Nv(_) => self.nvram.count(what),
            Device::Drive(_) => self.drives.count(what),
        }
    }
}

/// The calls of a part of a session: part 0 is its opening, which ends where input is taken, and each part behind it ends with a reply.
pub fn part(calls: &[Call], part: u64) -> DeviceCalls {
    let mut counted = DeviceCalls {
        nvram: Counts::NONE,
        drives: Counts::NONE,
    };
    let mut at = 0u64;
    for call in calls {
        match call {
            Call::On(device, what) => {
                if at == part {
                    counted.count(*device, what);
                }
            }
            Call::Take(_) => at = at.max(1),
            Call::Give(_) => at = at.saturating_add(1),
        }
    }
    counted
}
