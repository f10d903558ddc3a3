// What the lines so far say.
ghost use Rattle.std.specs.Prelude.{◌≡◌, ◌≤◌, Ok, Err, IfOk, MatchResult, is_some};
ghost use Rattle.std.specs.List.{list_any};
ghost use Rattle.std.specs.Result.{ForOk};
ghost use Rattle.t1s_base.specs.Limits.{last_node};
ghost use Rattle.t1s_script.specs.Draft.{IsTaken, also_after, draft_after, draft_start, draw_after, end_after, given, late_after, line_after, no_settings, node_after, node_of, nodes_from, offer_after, script_with, seed_after, set_after, slot_at, stub_after, timed_after, timer_after, value_in, with_given, with_slot};
ghost use Rattle.t1s_script.specs.Ranges.{HasSlot};

use crate::kept_acts::KeptActs;
use crate::refusals::{LineFault, ScriptReason};
use crate::script::{Act, Deed, DrawList, NodeLine, NodeList, Script};
use crate::words::{ScriptLine, Setting};
use std::alloc::{AllocError, Global};
use std::array;
use t1s_base::{Ids, MOST_NODES};
use t1s_frame::Frame;

/// A slot for each node that a segment may have.
const SLOTS: usize = MOST_NODES as usize;

/// The most timed lines of a script.
const MOST_ACTS: usize = 4096;

/// The most draws that a script lists for a node.
const MOST_DRAWS: usize = 64;

/// The seed where no line gives one.
const DEFAULT_SEED: u64 = 1;

/// The settings that lines gave.
#[derive(Clone, Copy)]
pub struct Settings {
    pub count: Option<u8>,
    pub to: Option<u8>,
    pub rise: Option<u8>,
    pub fall: Option<u8>,
    pub burst: Option<u8>,
    pub room: Option<u8>,
}

impl Settings {
    /// No line has given any.
    fn none() -> Settings
        ensures { result ≡ no_settings }
    {
        Settings {
            count: None,
            to: None,
            rise: None,
            fall: None,
            burst: None,
            room: None,
        }
    }

    /// The number that a line gave.
    fn given(&self, setting: Setting) -> Option<u8>
        ensures { result ≡ given self.now setting }
    {
        match setting {
            Setting::Count => self.count,
            Setting::To => self.to,
            Setting::Rise => self.rise,
            Setting::Fall => self.fall,
            Setting::Burst => self.burst,
            Setting::Room => self.room,
        }
    }

    /// One more number is given.
    fn give(&mut self, setting: Setting, number: u8)
        ensures { self.new ≡ with_given self.old setting number }
    {
        match setting {
            Setting::Count => self.count = Some(number),
            Setting::To => self.to = Some(number),
            Setting::Rise => self.rise = Some(number),
            Setting::Fall => self.fall = Some(number),
            Setting::Burst => self.burst = Some(number),
            Setting::Room => self.room = Some(number),
        }
    }

    /// The number that holds.
    fn value(&self, setting: Setting) -> u8
        ensures { result ≡ value_in self.now setting }
    {
        self.given(setting).unwrap_or(setting.default_value())
    }
}

/// What stood for the node of one number.
#[derive(Drop)]
pub struct Slot {
    pub ids: Ids,
    pub place: u8,
    /// The length of its `stub` line.
    pub stub: Option<u8>,
    /// The timer of its `tonode` line.
    pub to: Option<u8>,
    /// The tick of its `late` line.
    pub start: Option<u64>,
    /// The draws of its `draw` lines.
    pub draws: DrawList,
}

impl Slot {
    /// The node of this slot, with that number. Without a timer of its own it has that one.
    fn node(self, no: u8, to: u8) -> NodeLine
        ensures { result ≡ node_of to no self }
    {
        let is_listed = !self.draws.as_slice().is_empty();
        NodeLine {
            no,
            ids: self.ids.copy(),
            place: self.place,
            stub: self.stub.unwrap_or(0),
            to: self.to.unwrap_or(to),
            start: self.start.unwrap_or(0),
            draws: is_listed.then_some(self.draws),
        }
    }
}

/// What the lines so far say.
#[derive(Drop)]
pub struct Draft {
    pub settings: Settings,
    pub seed: Option<u64>,
    /// By the number of the node.
    pub slots: [Option<Slot>; SLOTS],
    /// The acts of the timed lines.
    pub acts: KeptActs,
    /// The tick of the last timed line.
    pub latest: u64,
    /// The number of ticks of the run, once `end` stood.
    pub end: Option<u64>,
}

impl Draft {
    /// No line stood yet.
    pub fn start(alloc: Global) -> Draft
        ensures { result ≡ draft_start }
    {
        Draft {
            settings: Settings::none(),
            seed: None,
            slots: array::from_fn(|_| None),
            acts: KeptActs::none(alloc),
            latest: 0,
            end: None,
        }
    }

    /// Whether the `node` line of that number stood.
    fn knows(&self, no: u8) -> bool
        requires { no ≤ last_node }
        ensures { result ≡ is_some (slot_at self.now no) }
    {
        self.slots[usize::from(no)].is_some()
    }

    /// Whether a `node` line stood.
    fn has_node(&self) -> bool
        ensures { result ≡ list_any is_some self.now.slots }
    {
        self.slots.iter().any(|slot| slot.is_some())
    }

    /// A line with a setting.
    fn take_setting(&mut self, setting: Setting, number: u8) -> Result<(), ScriptReason>
        ensures { MatchResult result (λ _. set_after self.old setting number ≡ Ok self.new) (λ reason. set_after self.old setting number ≡ Err reason) }
    {
        if self.settings.given(setting).is_some() {
            return Err(ScriptReason::Twice);
        }
        self.settings.give(setting, number);
        Ok(())
    }

    /// A `seed` line.
    fn take_seed(&mut self, seed: u64) -> Result<(), ScriptReason>
        ensures { MatchResult result (λ _. seed_after self.old seed ≡ Ok self.new) (λ reason. seed_after self.old seed ≡ Err reason) }
    {
        if self.seed.is_some() {
            return Err(ScriptReason::Twice);
        }
        self.seed = Some(seed);
        Ok(())
    }

    /// A `node` line.
    fn take_node(&mut self, alloc: Global, no: u8, id: u8, place: u8) -> Result<(), ScriptReason>
        requires { no ≤ last_node }
        ensures { MatchResult result (λ _. node_after self.old no id place ≡ Ok self.new) (λ reason. node_after self.old no id place ≡ Err reason) }
    {
        if self.knows(no) {
            return Err(ScriptReason::Twice);
        }
        self.slots[usize::from(no)] = Some(Slot {
            ids: Ids::one(id),
            place,
            stub: None,
            to: None,
            start: None,
            draws: DrawList::none(alloc),
        });
        Ok(())
    }

    /// An `also` line.
    fn take_also(&mut self, no: u8, id: u8) -> Result<(), ScriptReason>
        requires { no ≤ last_node }
        ensures { MatchResult result (λ _. also_after self.old no id ≡ Ok self.new) (λ reason. also_after self.old no id ≡ Err reason) }
    {
        match &mut self.slots[usize::from(no)] {
            None => Err(ScriptReason::UnknownNode),
            Some(slot) if slot.ids.has(id) => Err(ScriptReason::Twice),
            Some(slot) => slot.ids.add(id).map_err(|_| ScriptReason::TooMany),
        }
    }

    /// A `stub` line.
    fn take_stub(&mut self, no: u8, stub: u8) -> Result<(), ScriptReason>
        requires { no ≤ last_node }
        ensures { MatchResult result (λ _. stub_after self.old no stub ≡ Ok self.new) (λ reason. stub_after self.old no stub ≡ Err reason) }
    {
        match &mut self.slots[usize::from(no)] {
            None => Err(ScriptReason::UnknownNode),
            Some(slot) if slot.stub.is_some() => Err(ScriptReason::Twice),
            Some(slot) => {
                slot.stub = Some(stub);
                Ok(())
            }
        }
    }

    /// A `late` line.
    fn take_late(&mut self, no: u8, start: u64) -> Result<(), ScriptReason>
        requires { no ≤ last_node }
        ensures { MatchResult result (λ _. late_after self.old no start ≡ Ok self.new) (λ reason. late_after self.old no start ≡ Err reason) }
    {
        match &mut self.slots[usize::from(no)] {
            None => Err(ScriptReason::UnknownNode),
            Some(slot) if slot.start.is_some() => Err(ScriptReason::Twice),
            Some(slot) => {
                slot.start = Some(start);
                Ok(())
            }
        }
    }

    /// A `tonode` line.
    fn take_timer(&mut self, no: u8, to: u8) -> Result<(), ScriptReason>
        requires { no ≤ last_node }
        ensures { MatchResult result (λ _. timer_after self.old no to ≡ Ok self.new) (λ reason. timer_after self.old no to ≡ Err reason) }
    {
        match &mut self.slots[usize::from(no)] {
            None => Err(ScriptReason::UnknownNode),
            Some(slot) if slot.to.is_some() => Err(ScriptReason::Twice),
            Some(slot) => {
                slot.to = Some(to);
                Ok(())
            }
        }
    }

    /// A `draw` line.
    fn take_draw(&mut self, no: u8, draw: u16) -> Result<(), LineFault>
        requires { no ≤ last_node }
        ensures { IsTaken (draw_after self.old no draw) result self.new }
    {
        match &mut self.slots[usize::from(no)] {
            None => Err(LineFault::Reason(ScriptReason::UnknownNode)),
            Some(slot) if slot.draws.as_slice().len() >= MOST_DRAWS => {
                Err(LineFault::Reason(ScriptReason::TooMany))
            }
            Some(slot) => Ok(slot.draws.push(draw)?),
        }
    }

    /// A timed line that does this.
    fn take_timed(&mut self, tick: u64, deed: Deed) -> Result<(), LineFault>
        ensures { IsTaken (timed_after self.old tick deed) result self.new }
    {
        if tick < self.latest {
            return Err(LineFault::Reason(ScriptReason::Order));
        }
        if self.acts.len() >= MOST_ACTS {
            return Err(LineFault::Reason(ScriptReason::TooMany));
        }
        self.acts.push(Act { tick, deed })?;
        self.latest = tick;
        Ok(())
    }

    /// An `offer` or a `fill` line.
    fn take_offer(&mut self, tick: u64, no: u8, frame: Frame) -> Result<(), LineFault>
        requires { no ≤ last_node }
        ensures { IsTaken (offer_after self.old tick no frame) result self.new }
    {
        if !self.knows(no) {
            return Err(LineFault::Reason(ScriptReason::UnknownNode));
        }
        let deed = Deed::Offer {
            number: 1 + self.acts.offers(),
            node: no,
            frame,
        };
        self.take_timed(tick, deed)
    }

    /// The `end` line.
    fn take_end(&mut self, end: u64) -> Result<(), ScriptReason>
        ensures { MatchResult result (λ _. end_after self.old end ≡ Ok self.new) (λ reason. end_after self.old end ≡ Err reason) }
    {
        if end <= self.latest {
            return Err(ScriptReason::Order);
        }
        if !self.has_node() {
            return Err(ScriptReason::NoNode);
        }
        self.end = Some(end);
        Ok(())
    }

    /// A line that isn't refused by itself.
    fn take_line(&mut self, alloc: Global, line: ScriptLine) -> Result<(), LineFault>
        requires { HasSlot line }
        ensures { IsTaken (line_after self.old line) result self.new }
    {
        match line {
            ScriptLine::Skipped => Ok(()),
            ScriptLine::Set(setting, number) => Ok(self.take_setting(setting, number)?),
            ScriptLine::Seed(seed) => Ok(self.take_seed(seed)?),
            ScriptLine::Node { no, id, place } => Ok(self.take_node(alloc, no, id, place)?),
            ScriptLine::Also { no, id } => Ok(self.take_also(no, id)?),
            ScriptLine::Stub { no, stub } => Ok(self.take_stub(no, stub)?),
            ScriptLine::Late { no, start } => Ok(self.take_late(no, start)?),
            ScriptLine::ToNode { no, to } => Ok(self.take_timer(no, to)?),
            ScriptLine::Draw { no, draw } => self.take_draw(no, draw),
            ScriptLine::Offer { tick, no, frame } => self.take_offer(tick, no, frame),
            ScriptLine::Noise { tick, until } => self.take_timed(tick, Deed::Noise { until }),
            ScriptLine::End(end) => Ok(self.take_end(end)?),
        }
    }

    /// Any line after the first, by what it says by itself.
    pub fn take(
        &mut self,
        alloc: Global,
        line: Result<ScriptLine, ScriptReason>,
    ) -> Result<(), LineFault>
        requires { ForOk line HasSlot }
        ensures { IsTaken (draft_after self.old line) result self.new }
    {
        if matches!(&line, Ok(ScriptLine::Skipped)) {
            return Ok(());
        }
        if self.end.is_some() {
            return Err(LineFault::Reason(ScriptReason::AfterEnd));
        }
        self.take_line(alloc, line?)
    }

    /// The script of these lines, with that end.
    pub fn script(self, alloc: Global, end: u64) -> Result<Script, AllocError>
        ensures { IfOk result (λ script. script ≡ script_with self end) }
    {
        let to = self.settings.value(Setting::To);
        Ok(Script {
            count: self.settings.value(Setting::Count),
            to,
            rise: self.settings.value(Setting::Rise),
            fall: self.settings.value(Setting::Fall),
            burst: self.settings.value(Setting::Burst),
            room: self.settings.value(Setting::Room),
            seed: self.seed.unwrap_or(DEFAULT_SEED),
            nodes: NodeList::of(nodes_in(alloc, to, self.slots)?),
            acts: self.acts.list(),
            end,
        })
    }
}

/// The nodes of these slots in ascending number, with that timer.
fn nodes_in(
    alloc: Global,
    to: u8,
    slots: [Option<Slot>; SLOTS],
) -> Result<Vec<NodeLine>, AllocError>
    ensures { IfOk result (λ nodes. nodes.items ≡ nodes_from to 0 slots) }
{
    let mut nodes = Vec::new(alloc);
    let mut no = 0;
    for slot in slots {
        if let Some(slot) = slot {
            nodes.push(slot.node(no, to))?;
        }
        no += 1;
    }
    Ok(nodes)
}
