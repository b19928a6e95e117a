// What happens in a row, where a slip of the engine would show.
use crate::devices::{
    DRIVES, Failures, any_drive, blank_drives, bring_all_back, let_fail, put_back, silence,
};
use crate::history::History;
use crate::random::Random;
use crate::request::{Ask, any_merge, push_ask};
use pur_base::{Device, DriveId, NvId, Status};

/// The most requests of a session here.
const MOST: u64 = 6;

/// An NVRAM device that may fail does so at one of so many calls: an opening has three or four, and an append four.
const NEAR: u64 = 14;

/// A drive that may fail does so at one of so many calls: an opening has two, and its store seven.
const NEAR_STORE: u64 = 10;

/// Drives that fail together do so within so many calls: a checkpoint takes seventeen.
const LATER: u64 = 60;

/// The most requests behind which checkpoints are asked for, in a row.
const PAIRS: u64 = 64;

/// The other NVRAM device.
fn other_than(nvram: Device) -> Device {
    match nvram {
        Device::Nv(NvId(0)) => Device::Nv(NvId(1)),
        _ => Device::Nv(NvId(0)),
    }
}

/// Puts a checkpoint behind a request, and now and then a merge. False where memory is wanting.
fn push_with_checkpoint(random: &mut Random, ask: Ask, asks: &mut Vec<Ask>) -> bool {
    push_ask(asks, ask)
        && push_ask(asks, Ask::Checkpoint)
        && (!random.once_in(3) || push_ask(asks, any_merge(random)))
}

impl History {
    /// A session with some requests that isn't stopped.
    fn ask_quietly(&mut self) {
        let asks = self.some_asks(MOST);
        self.serve(&asks, u64::MAX);
    }

    /// A session with some requests, that may be stopped.
    fn ask_shortly(&mut self) {
        let asks = self.some_asks(MOST);
        let calls = self.calls_of_session();
        self.serve(&asks, calls);
    }

    /// A session that shows the array, and isn't stopped. Nothing of it is told.
    fn look_quietly(&mut self) {
        let asks = self.questions();
        let told = self.told;
        self.serve(&asks, u64::MAX);
        self.told = told;
    }

    /// An opening that is stopped.
    fn open_quietly(&mut self) {
        let calls = self.calls_of_opening();
        self.serve(&[], calls);
    }

    /// An array is used, and another one made over its log: the slots hold the commands of the first one then, behind closed gates.
    pub(crate) fn make_over(&mut self) {
        self.ask_quietly();
        blank_drives(&mut self.world);
        self.failures = Failures::new();
        self.arrays.clear();
        self.push_new_array();
        self.make_at_once();
    }

    /// Openings are stopped one behind another. Then the drives that may fail are away.
    pub(crate) fn open_often(&mut self) {
        for _ in 0..self.random.below(3).saturating_add(1) {
            self.open_quietly();
        }
        let [first, second] = self.weak.drives;
        self.pull_one(first);
        self.pull_one(second);
        self.look_quietly();
        put_back(&mut self.world, first);
        put_back(&mut self.world, second);
    }

    /// These requests, with checkpoints behind them.
    fn with_checkpoints(&mut self, some: &[Ask]) -> Vec<Ask> {
        let mut asks = Vec::new(self.alloc);
        for ask in some {
            let are_pushed = push_with_checkpoint(&mut self.random, *ask, &mut asks);
            self.need(are_pushed);
        }
        asks
    }

    /// Behind each request a checkpoint is asked for, and now and then a merge, until there is no room for more or a stop comes.
    pub(crate) fn use_up(&mut self) {
        let some = self.some_asks(PAIRS);
        let asks = self.with_checkpoints(&some);
        let calls = self.calls_of_long_session();
        self.serve(&asks, calls);
    }

    /// The NVRAM device that may fail is away for a session or two, and comes back.
    pub(crate) fn leave_out(&mut self) {
        if self.random.once_in(2) {
            self.ask_quietly();
        }
        let weak = self.weak.nvram;
        self.pull_one(weak);
        if self.random.once_in(2) {
            self.ask_quietly();
        }
        self.look_quietly();
        put_back(&mut self.world, weak);
        self.look_quietly();
    }

    /// The NVRAM device that may fail does so once, mostly in an append, and is back then; but now the other one is away.
    /// Only of a new array: no device has lost anything yet that it may be asked for.
    pub(crate) fn lose_other(&mut self) {
        self.ask_quietly();
        let weak = self.weak.nvram;
        self.fail_within(weak, NEAR);
        self.ask_shortly();
        if self.random.once_in(2) {
            self.open_quietly();
        }
        let_fail(&mut self.world, weak);
        let other = other_than(weak);
        self.pull_one(other);
        self.look_without(other);
        put_back(&mut self.world, other);
    }

    /// A session without this NVRAM device: where the record names no other one, nothing is answered. Else this one is the one that may fail from now on.
    fn look_without(&mut self, nvram: Device) {
        let asks = self.questions();
        let Some(left) = self.ask(&asks, u64::MAX) else {
            return;
        };
        if matches!(left.status, Status::Halted) && left.given(&self.world).is_empty() {
            self.stop(false);
            return;
        }
        self.weak.nvram = nvram;
        let told = self.told;
        self.heed(left, &asks);
        self.told = told;
    }

    /// Lets a drive fail once, mostly in the next store.
    fn fail_near(&mut self, drive: Device) {
        put_back(&mut self.world, drive);
        let_fail(&mut self.world, drive);
        self.fail_one(drive, NEAR_STORE);
    }

    /// A session in which more devices may fail than can be borne.
    fn ask_while_many_fail(&mut self, asks: &[Ask], calls: u64) {
        self.many_fail = true;
        self.serve(asks, calls);
        self.many_fail = false;
    }

    /// The same with some requests, that isn't stopped.
    fn ask_while_three_fail(&mut self) {
        let asks = self.some_asks(MOST);
        self.ask_while_many_fail(&asks, u64::MAX);
    }

    /// Three drives fail in a session, mostly in its store. With all drives back the next one isn't halted.
    pub(crate) fn lose_three(&mut self) {
        let [first, second] = self.weak.drives;
        let third = any_drive(&mut self.random);
        self.fail_near(first);
        self.fail_near(second);
        self.fail_near(third);
        self.ask_while_three_fail();
        let_fail(&mut self.world, first);
        let_fail(&mut self.world, second);
        let_fail(&mut self.world, third);
        self.look_quietly();
    }

    /// When devices fail: often in the opening.
    fn moment(&mut self) -> u64 {
        if self.random.once_in(2) {
            self.random.below(NEAR_STORE)
        } else {
            self.random.below(LATER)
        }
    }

    /// Lets a device answer no more, from its nth next call on.
    fn silence_one(&mut self, device: Device, nth: u64) {
        let is_silent = silence(&mut self.world, device, nth).is_ok();
        self.need(is_silent);
        self.tell_failures(1);
    }

    /// Lets three drives or more answer no more, from nearly the same call on.
    fn silence_drives(&mut self) {
        let count = self.random.byte_below(DRIVES - 2).saturating_add(3);
        let step = self.random.byte_below(DRIVES - 1).saturating_add(1);
        let mut drive = self.random.byte_below(DRIVES);
        let moment = self.moment();
        for _ in 0..count {
            let nth = moment.saturating_add(self.random.below(3));
            self.silence_one(Device::Drive(DriveId(drive)), nth);
            drive = drive.saturating_add(step) % DRIVES;
        }
    }

    /// Lets an NVRAM device answer no more.
    fn silence_nvram(&mut self, nvram: u8) {
        let nth = self.random.below(NEAR);
        self.silence_one(Device::Nv(NvId(nvram)), nth);
    }

    /// Lets more devices fail than can be borne: three drives or more, both NVRAM devices, or all of these.
    fn silence_many(&mut self) {
        let kind = self.random.below(4);
        if kind != 0 {
            self.silence_drives();
        }
        if kind != 1 {
            self.silence_nvram(0);
        }
        if kind != 1 && kind != 2 {
            self.silence_nvram(1);
        }
    }

    /// Some requests, with checkpoints behind them or without.
    fn asks_or_checkpoints(&mut self) -> Vec<Ask> {
        let some = self.some_asks(MOST);
        if self.random.once_in(2) {
            some
        } else {
            self.with_checkpoints(&some)
        }
    }

    /// A session of these, which may be stopped, in which more devices may fail than can be borne.
    fn ask_in_silence(&mut self) {
        let asks = self.asks_or_checkpoints();
        let calls = if self.random.once_in(4) {
            self.calls_of_session()
        } else {
            u64::MAX
        };
        self.ask_while_many_fail(&asks, calls);
    }

    /// More devices fail at once than can be borne, and answer again behind that session: the next one has the array of before or behind the request in hand.
    pub(crate) fn lose_many(&mut self) {
        // A device that lost something has to be left out before others fail.
        bring_all_back(&mut self.world);
        self.look_at_all();
        self.silence_many();
        self.ask_in_silence();
        bring_all_back(&mut self.world);
        self.look_at_all();
    }
}
