// The commands that wait in the log.
ghost use Rattle.std.specs.Prelude.{List};
ghost use Rattle.pur_base.specs.Commands.{Command};
ghost use Rattle.nvram_log.specs.Held.{HasRead};
ghost use Rattle.shelf_look.specs.Log.{AreFew, AreWaiting, CountsOne};

use nvram_log::NvLog;
use pur_base::Request;

/// How many commands of each kind the log has.
#[derive(Clone, Copy)]
pub struct Waiting {
    pub creates: usize,
    pub writes: usize,
    pub fills: usize,
    pub zeroes: usize,
    pub snapshots: usize,
    pub clones: usize,
    pub copies: usize,
    pub destroys: usize,
}

impl Waiting {
    /// These, and one more.
    fn and(&self, request: &Request) -> Waiting
        requires { AreFew self.now }
        ensures { CountsOne self.now request.now result }
    {
        let mut all = *self;
        match request {
            Request::Create { .. } => all.creates += 1,
            Request::Write { .. } => all.writes += 1,
            Request::Fill { .. } => all.fills += 1,
            Request::Zero { .. } => all.zeroes += 1,
            Request::Snapshot { .. } => all.snapshots += 1,
            Request::Clone { .. } => all.clones += 1,
            Request::Copy { .. } => all.copies += 1,
            Request::Destroy { .. } => all.destroys += 1,
            // The others are never logged.
            _ => {}
        }
        all
    }
}

/// How many commands of each kind wait.
pub fn waiting_in(log: &NvLog) -> Waiting
    requires read { (commands : List Command) × HasRead log.now commands }
    ensures { (commands : List Command) → HasRead log.now commands → AreWaiting commands result }
{
    let mut waiting = Waiting {
        creates: 0,
        writes: 0,
        fills: 0,
        zeroes: 0,
        snapshots: 0,
        clones: 0,
        copies: 0,
        destroys: 0,
    };
    for i in 0..log.count() {
        let Some(logged) = log.record_at(i) else {
            unreachable!()
        };
        waiting = waiting.and(&logged.head.command);
    }
    waiting
}
