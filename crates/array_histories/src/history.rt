// One history.
use crate::devices::{
    DRIVES, FAIL_AHEAD, Failures, UNITS, any_drive, blank, blank_all, calls_before_input, fail,
    let_fail, pull, put_back, stop, was_data_written, was_synced,
};
use crate::engine::work_on;
use crate::model::{Heard, Model};
use crate::random::Random;
use crate::request::{Ask, any_ask, push_ask};
use crate::text::Text;
use pur_base::{Device, DriveId, NVRAM_DEVICES, NoMemory, NvId, Status};
use std::alloc::Global;
use std::mem;
use world::Source;
use world_mem::{Call, Fused, MemWorld};

/// Where more arrays may stand, they are looked at.
const ARRAYS: usize = 4;

/// What happened in histories so far.
#[derive(Clone, Copy)]
pub struct Told {
    pub acknowledged: u64,
    pub stops: u64,
    pub failures: u64,
    /// How many sessions were halted, since more devices failed than can be borne.
    pub halts: u64,
    /// How many histories have come to a checkpoint, to a merge, to a flattening, and to the end of the room.
    pub flushed: u64,
    pub merged: u64,
    pub flattened: u64,
    pub full: u64,
}

impl Told {
    /// Nothing.
    pub fn new() -> Told {
        Told {
            acknowledged: 0,
            stops: 0,
            failures: 0,
            halts: 0,
            flushed: 0,
            merged: 0,
            flattened: 0,
            full: 0,
        }
    }
}

/// Why a history doesn't come to its end.
#[derive(Clone, Copy)]
pub enum Trouble {
    Memory,
    /// What was answered isn't what an array of the acknowledged requests, or of one more, answers.
    Lost,
}

/// The devices that may fail in a history: two drives, and an NVRAM device. They count as missing all along.
#[derive(Clone, Copy)]
pub(crate) struct Weak {
    pub(crate) drives: [Device; 2],
    pub(crate) nvram: Device,
}

impl Weak {
    fn new(random: &mut Random) -> Weak {
        Weak {
            drives: [any_drive(random), any_drive(random)],
            nvram: Device::Nv(NvId(random.byte_below(NVRAM_DEVICES))),
        }
    }

    /// Those that weren't synced in a whole opening, since its record leaves them out, and others where there are fewer.
    fn of_unsynced(random: &mut Random, calls: &[Call]) -> Weak {
        let mut weak = Weak::new(random);
        let mut found = 0;
        for drive in 0..DRIVES {
            let device = Device::Drive(DriveId(drive));
            if found < 2 && !was_synced(calls, device) {
                weak.drives[found] = device;
                found += 1;
            }
        }
        for nvram in 0..NVRAM_DEVICES {
            let device = Device::Nv(NvId(nvram));
            if !was_synced(calls, device) {
                weak.nvram = device;
            }
        }
        weak
    }
}

/// How a session ended, and how much had been given before it.
#[derive(Clone, Copy)]
pub(crate) struct Left {
    pub(crate) status: Status,
    pub(crate) stopped: bool,
    given_before: usize,
}

impl Left {
    /// What it gave, of what the world was given.
    pub(crate) fn given(self, world: &MemWorld) -> &[u8] {
        world.output().get(self.given_before..).unwrap_or(&[])
    }
}

/// Takes what is left of the input.
fn take_rest(world: &mut MemWorld) {
    let mut bytes = [0; 4096];
    for _ in 0..u64::MAX {
        match world.take(&mut bytes) {
            Ok(0) | Err(_) => return,
            Ok(_) => {}
        }
    }
}

/// After how many calls a session is stopped whose opening takes so many: often in its first appends.
fn calls_until(random: &mut Random, opening: u64) -> u64 {
    match random.below(12) {
        0..=2 => u64::MAX,
        3 | 4 => random.below(60),
        5 | 6 => random.below(150),
        7 | 8 => random.below(400),
        9 | 10 => opening.saturating_add(random.below(10)),
        _ => opening.saturating_add(random.below(100)),
    }
}

/// How a session ended.
#[derive(Clone, Copy)]
enum End {
    Whole,
    Stopped,
    /// More devices failed than can be borne.
    Halted,
}

/// What is seen of a session beside what it gave: its end, whether input was taken, and whether more devices failed meanwhile than can be borne.
#[derive(Clone, Copy)]
struct Seen {
    end: End,
    taken: bool,
    many_fail: bool,
}

impl Seen {
    /// Whether it may end so where some requests are left that it didn't answer, or none are.
    fn may_end(self, some_left: bool) -> bool {
        match self.end {
            End::Whole => !some_left,
            End::Stopped => true,
            End::Halted => some_left || !self.taken,
        }
    }

    /// Whether its output may end in a reply: a halted one gives whole replies.
    fn may_break(self) -> bool {
        matches!(self.end, End::Stopped) || !self.taken
    }
}

/// How many of the requests were answered by the whole of an output, each as the array answers, which goes on by them. None where they weren't.
/// Where more devices fail meanwhile than can be borne, sectors may be out of reach of a read, and a request may halt the session.
fn follow(
    alloc: Global,
    array: &mut Model,
    asks: &[Ask],
    output: &[u8],
    seen: Seen,
) -> Result<Option<usize>, NoMemory> {
    let mut at = 0;
    for place in 0..asks.len() {
        let rest = output.get(at..).unwrap_or(&[]);
        if matches!(seen.end, End::Halted) && array.is_halted(&asks[place..], rest) {
            return Ok(Some(place));
        }
        match array.hear(alloc, &asks[place], rest, seen.many_fail)? {
            Heard::Whole(size) => at = at.saturating_add(size),
            Heard::Part => return Ok(if seen.may_break() { Some(place) } else { None }),
            Heard::Other => return Ok(None),
        }
    }
    Ok(if at == output.len() {
        Some(asks.len())
    } else {
        None
    })
}

/// Puts an array behind the others.
fn push_array(arrays: &mut Vec<Model>, array: Model) -> Result<(), NoMemory> {
    arrays.push(array)?;
    Ok(())
}

/// The array behind a request during which a stop came: as it may be, if not as before.
fn push_later(array: &Model, next: &Ask, after: &mut Vec<Model>) -> Result<(), NoMemory> {
    if let Some(stored) = array.stored(next) {
        push_array(after, stored)?;
    }
    if array.takes(next) {
        let mut more = *array;
        more.apply(next);
        push_array(after, more)?;
    }
    Ok(())
}

/// Puts an array behind the others where it answers what was given, as it goes on: by what was answered, and after a stop or a halt perhaps by one request
/// more, or its checkpoint or merge. How many were answered.
fn keep(
    alloc: Global,
    array: &Model,
    asks: &[Ask],
    given: &[u8],
    seen: Seen,
    after: &mut Vec<Model>,
) -> Result<Option<usize>, NoMemory> {
    let mut array = *array;
    let Some(count) = follow(alloc, &mut array, asks, given, seen)? else {
        return Ok(None);
    };
    if !seen.may_end(count < asks.len()) {
        return Ok(None);
    }
    if let Some(next) = asks.get(count) {
        if seen.taken {
            push_later(&array, next, after)?;
        }
    }
    push_array(after, array)?;
    Ok(Some(count))
}

/// Keeps those of the arrays that answer what was given.
fn keep_all(
    alloc: Global,
    arrays: &[Model],
    asks: &[Ask],
    given: &[u8],
    seen: Seen,
    after: &mut Vec<Model>,
) -> Result<usize, NoMemory> {
    let mut answered = 0;
    for array in arrays {
        if let Some(count) = keep(alloc, array, asks, given, seen, after)? {
            answered = count;
        }
    }
    Ok(answered)
}

/// The texts of requests.
fn text_of(alloc: Global, asks: &[Ask]) -> Result<Vec<u8>, NoMemory> {
    let mut text = Text::new(alloc);
    for ask in asks {
        ask.put_to(&mut text);
    }
    text.end()
}

/// A request of an array by chance, which goes on by it. False where memory is wanting.
fn push_next(random: &mut Random, array: &mut Model, asks: &mut Vec<Ask>) -> bool {
    let next = any_ask(random, array.volumes());
    array.apply(&next);
    push_ask(asks, next)
}

/// Requests that show these arrays. False where memory is wanting.
fn push_questions(arrays: &[Model], asks: &mut Vec<Ask>) -> bool {
    let mut are_pushed = push_ask(asks, Ask::Status) && push_ask(asks, Ask::List);
    for array in arrays {
        are_pushed = array.push_questions(asks) && are_pushed;
    }
    are_pushed
}

/// Lets the devices that failed be known to the arrays.
fn heed_all(arrays: &mut Vec<Model>, failures: &Failures) {
    for place in 0..arrays.len() {
        arrays[place].heed(failures);
    }
}

/// A world of blank devices.
fn blank_world(alloc: Global) -> Result<MemWorld, NoMemory> {
    MemWorld::new(alloc, DRIVES, UNITS, Vec::new(alloc))
}

/// A history: what may happen in it, the devices, and the arrays that may stand on them. Once there is trouble, no session happens any more.
#[derive(Drop)]
pub struct History {
    pub(crate) alloc: Global,
    pub(crate) random: Random,
    pub(crate) weak: Weak,
    pub(crate) world: MemWorld,
    /// Stands in for the world while a session has that.
    spare: Option<MemWorld>,
    /// Whether a drive was written behind its boot units.
    has_data: bool,
    pub(crate) failures: Failures,
    pub(crate) arrays: Vec<Model>,
    session: u64,
    /// The calls on devices of the last opening.
    opening: u64,
    /// Whether more devices may fail in this session than can be borne.
    pub(crate) many_fail: bool,
    pub(crate) told: Told,
    trouble: Option<Trouble>,
}

/// As many requests of a session may fill the log twice.
const MANY: u64 = 150;

/// The calls of the first opening of a new array.
const FIRST_OPENING: u64 = 83;

impl History {
    /// The first history of a seed, on blank devices.
    pub fn new(alloc: Global, seed: u64) -> Result<History, NoMemory> {
        let mut random = Random::new(seed, 0);
        let weak = Weak::new(&mut random);
        let world = blank_world(alloc)?;
        let spare = blank_world(alloc)?;
        Ok(History {
            alloc,
            random,
            weak,
            world,
            spare: Some(spare),
            has_data: false,
            failures: Failures::new(),
            arrays: Vec::new(alloc),
            session: 0,
            opening: FIRST_OPENING,
            many_fail: false,
            told: Told::new(),
            trouble: None,
        })
    }

    /// Becomes the history of that number, on the same devices, which are blank.
    pub fn restart(&mut self, seed: u64, number: u64) {
        self.random = Random::new(seed, number);
        self.weak = Weak::new(&mut self.random);
        self.has_data = false;
        self.failures = Failures::new();
        self.arrays.clear();
        self.session = 0;
        self.opening = FIRST_OPENING;
        self.many_fail = false;
    }

    /// Takes new devices.
    pub fn renew(&mut self) {
        match blank_world(self.alloc) {
            Ok(world) => self.world = world,
            Err(NoMemory) => self.need(false),
        }
    }

    /// The sessions that it has begun.
    pub fn session(&self) -> u64 {
        self.session
    }

    /// What happened in it and in those before it.
    pub fn told(&self) -> Told {
        self.told
    }

    /// Why it didn't come to its end, if it didn't.
    pub fn trouble(&self) -> Option<Trouble> {
        self.trouble
    }

    /// Notes the first trouble.
    fn note_trouble(&mut self, why: Trouble) {
        if self.trouble.is_none() {
            self.trouble = Some(why);
        }
    }

    /// Notes that something was lost, where something isn't right.
    fn expect(&mut self, is_right: bool) {
        if !is_right {
            self.note_trouble(Trouble::Lost);
        }
    }

    /// Notes that memory was wanting, where it was.
    pub(crate) fn need(&mut self, was_there: bool) {
        if !was_there {
            self.note_trouble(Trouble::Memory);
        }
    }

    /// Lets it happen on devices that are blank, and blanks them.
    pub fn run(&mut self) {
        self.make();
        self.push_new_array();
        self.begin();
        let most = match self.random.below(16) {
            0 | 1 => MANY,
            2 | 3 => 40,
            _ => 8,
        };
        for _ in 0..self.random.below(5).saturating_add(1) {
            self.ask_some(most);
            self.go_on();
            if self.arrays.len() > ARRAYS || self.random.once_in(2) {
                self.look();
            }
        }
        self.look();
        if self.random.once_in(4) {
            self.lose_three();
        }
        self.tell();
        blank_all(&mut self.world);
    }

    /// The array of nothing may stand.
    pub(crate) fn push_new_array(&mut self) {
        let is_pushed = push_array(&mut self.arrays, Model::new()).is_ok();
        self.need(is_pushed);
    }

    /// Tells how far it came.
    fn tell(&mut self) {
        let mut has_merged = false;
        let mut has_flattened = false;
        let mut lacked_space = false;
        for array in &self.arrays {
            has_merged = has_merged || array.has_merged();
            has_flattened = has_flattened || array.has_flattened();
            lacked_space = lacked_space || array.lacked_space();
        }
        let told = &mut self.told;
        told.flushed = told.flushed.saturating_add(u64::from(self.has_data));
        told.merged = told.merged.saturating_add(u64::from(has_merged));
        told.flattened = told.flattened.saturating_add(u64::from(has_flattened));
        told.full = told.full.saturating_add(u64::from(lacked_space));
    }

    /// What may happen to an array that was just made.
    fn begin(&mut self) {
        match self.random.below(4) {
            0 => self.make_over(),
            1 => self.lose_other(),
            _ => {}
        }
    }

    /// What may happen behind a session with requests.
    fn go_on(&mut self) {
        match self.random.below(8) {
            0..=2 => self.open_only(),
            3 => self.open_often(),
            4 => self.leave_out(),
            5 => if self.random.once_in(4) {
                self.use_up();
            },
            6 => self.lose_many(),
            _ => {}
        }
    }

    /// Tells that so many devices failed.
    pub(crate) fn tell_failures(&mut self, count: u64) {
        self.told.failures = self.told.failures.saturating_add(count);
    }

    /// Lets one of the next calls on a device fail, of so many.
    pub(crate) fn fail_within(&mut self, device: Device, calls: u64) {
        let nth = self.random.below(calls);
        let is_named = fail(&mut self.world, device, nth).is_ok();
        self.need(is_named);
    }

    /// The same, which is told.
    pub(crate) fn fail_one(&mut self, device: Device, calls: u64) {
        self.fail_within(device, calls);
        self.tell_failures(1);
    }

    pub(crate) fn pull_one(&mut self, device: Device) {
        pull(&mut self.world, device);
        self.tell_failures(1);
    }

    fn blank_one(&mut self, device: Device) {
        blank(&mut self.world, device);
        self.failures.replace(device);
        self.tell_failures(1);
    }

    /// Lets something happen to some of the devices that may fail.
    fn disturb(&mut self) {
        let [first, second] = self.weak.drives;
        self.disturb_one(first);
        self.disturb_one(second);
        self.disturb_one(self.weak.nvram);
    }

    fn disturb_one(&mut self, device: Device) {
        match self.random.below(12) {
            0 => self.pull_one(device),
            1 | 2 => put_back(&mut self.world, device),
            3 => self.blank_one(device),
            4..=6 => {
                let ahead = if self.random.once_in(2) {
                    12
                } else {
                    FAIL_AHEAD
                };
                self.fail_one(device, ahead);
            }
            _ => {}
        }
    }

    /// A session that is stopped after so many calls on devices, or the making of an array. None after trouble.
    fn run_for(&mut self, is_making: bool, calls: u64) -> Option<Left> {
        if self.trouble.is_some() {
            return None;
        }
        let Some(spare) = self.spare.take() else {
            self.need(false);
            return None;
        };
        let given_before = self.world.output().len();
        let mut fused = Fused::new(mem::replace(&mut self.world, spare), calls);
        let status = work_on(self.alloc, is_making, &mut fused);
        let stopped = fused.blown();
        self.spare = Some(mem::replace(&mut self.world, fused.into_inner()));
        Some(Left {
            status,
            stopped,
            given_before,
        })
    }

    /// A stop, where there was one.
    pub(crate) fn stop(&mut self, stopped: bool) {
        self.has_data = self.has_data || was_data_written(self.world.calls());
        take_rest(&mut self.world);
        if stopped {
            self.told.stops = self.told.stops.saturating_add(1);
            if self.random.once_in(24) {
                self.stop_at_once();
            } else {
                let is_torn = stop(self.alloc, &mut self.world, &mut self.random).is_ok();
                self.need(is_torn);
            }
        }
        self.world.forget();
    }

    /// A stop that leaves any bytes where none are synced, and no input or output.
    fn stop_at_once(&mut self) {
        match self.world.stopped(self.alloc, &mut self.random) {
            Ok(world) => self.world = world,
            Err(NoMemory) => self.need(false),
        }
    }

    /// Makes the array. A making that is stopped is begun again.
    fn make(&mut self) {
        let mut calls = u64::MAX;
        if self.random.once_in(4) {
            calls = self.random.below(80);
        }
        let drive = self.weak.drives[0];
        if self.random.once_in(8) {
            self.fail_one(drive, 12);
        }
        let Some(left) = self.run_for(true, calls) else {
            return;
        };
        match left.status {
            Status::Done => self.expect(!left.stopped),
            Status::Halted | Status::Sink => {
                self.stop(left.stopped);
                let_fail(&mut self.world, drive);
                self.make_again();
            }
            _ => self.expect(false),
        }
    }

    /// Makes the array on devices that give none, or the one of nothing.
    fn make_again(&mut self) {
        let Some(left) = self.run_for(true, u64::MAX) else {
            return;
        };
        match left.status {
            Status::Done => {}
            Status::NotBlank => self.make_anew(),
            _ => self.expect(false),
        }
    }

    /// Makes the array in place of one of nothing.
    fn make_anew(&mut self) {
        self.look_at_nothing();
        blank_all(&mut self.world);
        self.make_at_once();
    }

    /// Makes the array on blank devices.
    pub(crate) fn make_at_once(&mut self) {
        if let Some(left) = self.run_for(true, u64::MAX) {
            self.expect(matches!(left.status, Status::Done));
        }
    }

    /// A session on devices that stand for the array of nothing, or that too few of them do.
    fn look_at_nothing(&mut self) {
        self.feed(&[Ask::List]);
        if let Some(left) = self.run_for(false, u64::MAX) {
            let given = left.given(&self.world);
            let is_right = match left.status {
                Status::Done => given == b"names 0\n".as_slice(),
                Status::Halted => given.is_empty(),
                _ => false,
            };
            self.expect(is_right);
        }
        take_rest(&mut self.world);
    }

    /// Some requests of the first array that may stand, as it goes on by them.
    pub(crate) fn some_asks(&mut self, most: u64) -> Vec<Ask> {
        let mut array = match self.arrays.first() {
            Some(array) => *array,
            None => Model::new(),
        };
        let mut asks = Vec::new(self.alloc);
        for _ in 0..self.random.below(most).saturating_add(1) {
            let is_pushed = push_next(&mut self.random, &mut array, &mut asks);
            self.need(is_pushed);
        }
        asks
    }

    /// Requests that show the arrays, and how much of them stands in the log.
    pub(crate) fn questions(&mut self) -> Vec<Ask> {
        let mut asks = Vec::new(self.alloc);
        let are_pushed = push_questions(self.arrays.as_slice(), &mut asks);
        self.need(are_pushed);
        asks
    }

    /// After how many calls a session is stopped, often in its first appends.
    pub(crate) fn calls_of_session(&mut self) -> u64 {
        calls_until(&mut self.random, self.opening)
    }

    /// After how many calls a session with many requests is stopped: now and then in a checkpoint.
    pub(crate) fn calls_of_long_session(&mut self) -> u64 {
        if self.random.once_in(2) {
            u64::MAX
        } else {
            self.opening.saturating_add(self.random.below(1200))
        }
    }

    /// After how many calls an opening is stopped, often in its store.
    pub(crate) fn calls_of_opening(&mut self) -> u64 {
        if self.random.once_in(2) {
            self.random.below(120)
        } else {
            self.opening.saturating_sub(self.random.below(70))
        }
    }

    /// A session with some requests.
    fn ask_some(&mut self, most: u64) {
        let asks = self.some_asks(most);
        let calls = if most == MANY {
            self.calls_of_long_session()
        } else {
            self.calls_of_session()
        };
        self.disturb();
        self.serve(&asks, calls);
    }

    /// A session without requests, which is stopped.
    fn open_only(&mut self) {
        let calls = self.calls_of_opening();
        self.disturb();
        self.serve(&[], calls);
    }

    /// A session that shows the array, and isn't stopped. Of it only the devices that failed are told.
    fn look(&mut self) {
        let asks = self.questions();
        let told = self.told;
        self.disturb();
        self.serve(&asks, u64::MAX);
        self.told = Told {
            failures: self.told.failures,
            ..told
        };
    }

    /// A session. The arrays are those that may stand after it.
    pub(crate) fn serve(&mut self, asks: &[Ask], calls: u64) {
        if let Some(left) = self.ask(asks, calls) {
            self.heed(left, asks);
        }
    }

    fn feed(&mut self, asks: &[Ask]) {
        let is_fed = match text_of(self.alloc, asks) {
            Ok(input) => self.world.feed(&input).is_ok(),
            Err(NoMemory) => false,
        };
        self.need(is_fed);
    }

    /// Lets a session happen. None after trouble.
    pub(crate) fn ask(&mut self, asks: &[Ask], calls: u64) -> Option<Left> {
        if self.trouble.is_some() {
            return None;
        }
        self.session = self.session.saturating_add(1);
        self.feed(asks);
        self.world.forget();
        self.run_for(false, calls)
    }

    /// Heeds what a session gave.
    pub(crate) fn heed(&mut self, left: Left, asks: &[Ask]) {
        let Some(end) = self.end_of(left) else {
            self.expect(false);
            return;
        };
        let opening = calls_before_input(&self.world);
        self.opening = opening.unwrap_or(self.opening);
        self.note_failures(false);
        self.judge(
            left,
            asks,
            Seen {
                end,
                taken: opening.is_some(),
                many_fail: self.many_fail,
            },
        );
        // Behind a whole session the record doesn't name them any more.
        self.note_failures(matches!(end, End::Whole));
        if matches!(end, End::Halted) {
            self.told.halts = self.told.halts.saturating_add(1);
        }
        self.stop(left.stopped);
    }

    /// Lets the arrays be those that answer what was given, as they go on, and tells how many requests were answered.
    fn judge(&mut self, left: Left, asks: &[Ask], seen: Seen) {
        let mut after = Vec::new(self.alloc);
        let given = left.given(&self.world);
        match keep_all(
            self.alloc,
            self.arrays.as_slice(),
            asks,
            given,
            seen,
            &mut after,
        ) {
            Ok(count) => {
                self.told.acknowledged = self.told.acknowledged.saturating_add(count as u64);
            }
            Err(NoMemory) => self.need(false),
        }
        self.expect(!after.is_empty());
        self.arrays = after;
    }

    /// How a session ended, if it may end so.
    fn end_of(&self, left: Left) -> Option<End> {
        if left.stopped {
            return Some(End::Stopped);
        }
        // Where more than half of the drives don't answer, no record is in force.
        let may_halt = match left.status {
            Status::Done => return Some(End::Whole),
            Status::Halted => true,
            Status::NoArray => left.given(&self.world).is_empty(),
            _ => false,
        };
        if self.many_fail && may_halt {
            Some(End::Halted)
        } else {
            None
        }
    }

    /// A session that shows the array, in which all devices answer. Those that its record leaves out are the ones that may fail from now on.
    pub(crate) fn look_at_all(&mut self) {
        let asks = self.questions();
        let told = self.told;
        if let Some(left) = self.ask(&asks, u64::MAX) {
            self.weak = Weak::of_unsynced(&mut self.random, self.world.calls());
            self.heed(left, &asks);
        }
        self.told = told;
    }

    /// Notes the calls that failed: what the records of the arrays may name behind them.
    fn note_failures(&mut self, lose: bool) {
        self.failures.note(self.world.calls(), lose);
        heed_all(&mut self.arrays, &self.failures);
    }
}
