//! `Node`, which a segment drives and lets hear once a tick.
ghost use Rattle.std.specs.Prelude.{◌≡◌, ◌<◌, ◌↔◌, [], length, IsOk, IsErr, IsSome, IsTrue, IfErr, IfSome};
ghost use Rattle.std.specs.Borrow.{sem};
ghost use Rattle.std.specs.Fn.{iterate};
ghost use Rattle.t1s_symbols.specs.CalmSteps.{AreCalm, IsCalmFor};
ghost use Rattle.t1s_symbols.specs.Ranges.{IsHeard, IsQuarter};
ghost use Rattle.t1s_pcs_rx.specs.Leaves.{event_shown, EventFits};
ghost use Rattle.t1s_pcs_rx.specs.ReceiveTable.{receive_event};
ghost use Rattle.t1s_pcs_tx.specs.State.{is_closed};
ghost use Rattle.t1s_pcs_tx.specs.TransmitTable.{transmit_step};
ghost use Rattle.plca_control.specs.ControlTable.{control_step};
ghost use Rattle.plca_data.specs.Ranges.{IsMacOut};
ghost use Rattle.t1s_mac.specs.CalmMac.{mac_after, IsCalmMac};
ghost use Rattle.t1s_mac.specs.MacTable.{mac_step};
ghost use Rattle.t1s_mac.specs.PickedDraws.{picked_answer, picked_after};
ghost use Rattle.t1s_mac.specs.State.{number_of};
ghost use Rattle.t1s_node.specs.CalmNode.{node_after_silence, IsCalmNode, is_still, quiet_has_no_part};
ghost use Rattle.t1s_node.specs.Core.{control_in};
ghost use Rattle.t1s_node.specs.Node.{IsNodeSet, reading_of, mac_in, node_start, node_after_offer, node_drive, node_sense, is_clash};
ghost use Rattle.t1s_node.specs.Leaves.{LeavesNode};

use crate::carrier::Carrier;
use crate::{Driven, NodeHeard, NodeSet};
use plca_control::{Control, ControlIn, ControlOut, Status};
use plca_data::{DataIn, DataPath, MacOut};
use std::marker::Model;
use t1s_mac::{Mac, MacStep, PickedDraws};
use t1s_pcs_rx::PcsRx;
use t1s_pcs_tx::{PcsTx, TxIn, TxReport};
use t1s_ring::{DelayLine, FrameRing, Queued};
use t1s_symbols::{Heard, Quarter};

/// A node. Contracts see it as a `NodeState`. Its MAC is there between any two calls: only its step takes it out.
#[derive(Drop)]
pub struct Node {
    rise: u8,
    fall: u8,
    control: Control,
    status: Status,
    mac: Option<Mac<PickedDraws>>,
    tx: PcsTx,
    path: DataPath,
    line: DelayLine,
    carrier: Carrier,
    receiver: PcsRx,
    hit: bool,
    drove: bool,
}

impl Model for Node {
    ghost use Rattle.std.specs.Prelude.{IsSome, IsTrue};
    ghost use Rattle.t1s_node.specs.Node.{NodeState, mac_in};
    ghost use Rattle.t1s_node.specs.CalmNode.{quiet_has_no_part};

    ghost Value = { NodeState };

    ghost view = { λ n. record { rise = n.rise; fall = n.fall; core = record { control = n.control; mac = mac_in n.mac; tx = n.tx; path = n.path; line = n.line }; status = n.status; carrier = n.carrier; receiver = n.receiver; hit = n.hit; drove = n.drove } };

    ghost invariant = { λ n. IsSome n.mac × IsTrue (quiet_has_no_part n.tx) };
}

/// Steps the MAC in its slot: what it tells, and the number of the frame in its Sending or Jamming then.
fn step_mac(
    slot: &mut Option<Mac<PickedDraws>>,
    carrier: bool,
    collision: bool,
) -> (MacStep, Option<u16>)
    requires { IsSome slot.old }
    ensures row { (mac_in slot.new, result.0) ≡ mac_step picked_answer picked_after (mac_in slot.old) carrier collision }
    ensures number { result.1 ≡ number_of (mac_in slot.new) }
    ensures nibble { IsMacOut result.0.out }
    ensures held { IsSome slot.new }
{
    let held = match slot.take() {
        Some(mac) => mac,
        None => unreachable!(),
    };
    let (mac, told) = held.step(carrier, collision);
    let number = mac.number();
    *slot = Some(mac);
    (told, number)
}

/// For how many ticks with this carrier and collision the MAC in its slot is calm, up to `most`.
fn mac_calm_for(slot: &Option<Mac<PickedDraws>>, carrier: bool, collision: bool, most: u64) -> u64
    requires { IsSome slot.now }
    ensures { IsCalmFor (mac_after picked_answer picked_after carrier collision) (IsCalmMac picked_answer picked_after carrier collision) (mac_in slot.now) most result }
{
    match slot {
        Some(mac) => mac.calm_for(carrier, collision, most),
        None => unreachable!(),
    }
}

/// Passes so many calm ticks of the MAC in its slot.
fn pass_mac(slot: &mut Option<Mac<PickedDraws>>, carrier: bool, collision: bool, n: u64)
    requires held { IsSome slot.old }
    requires calm { AreCalm (mac_after picked_answer picked_after carrier collision) (IsCalmMac picked_answer picked_after carrier collision) (mac_in slot.old) n }
    ensures steps { mac_in slot.new ≡ iterate (mac_after picked_answer picked_after carrier collision) n (mac_in slot.old) }
    ensures held { IsSome slot.new }
{
    let held = match slot.take() {
        Some(mac) => mac,
        None => unreachable!(),
    };
    *slot = Some(held.pass(carrier, collision, n));
}

/// Steps the transmitter in its place: the quarter that it drives.
fn step_tx(tx: &mut PcsTx, inp: TxIn, line: &mut DelayLine) -> Option<Quarter>
    ensures state { tx.new ≡ (transmit_step tx.old inp line.old).state }
    ensures driven { result ≡ (transmit_step tx.old inp line.old).driven }
    ensures line { line.new ≡ (transmit_step tx.old inp line.old).line }
    ensures quarter { IfSome result IsQuarter }
    ensures part { IsTrue (quiet_has_no_part tx.new) }
{
    let held = std::mem::replace(tx, PcsTx::start());
    let (next, quarter) = held.step(inp, line);
    *tx = next;
    quarter
}

/// What the data path is told: what control and the MAC give out in this tick, and the rest as the last tick left it.
fn data_in(found: ControlIn, given: ControlOut, hit: bool, mac: MacOut) -> DataIn
    ensures { result ≡ record { active = given.active; own = given.own; closed = is_closed found.tx; crs = found.crs; class = found.class; hit = hit; mac = mac } }
{
    DataIn {
        active: given.active,
        own: given.own,
        closed: matches!(found.tx, TxReport::Closed { good: _ }),
        crs: found.crs,
        class: found.class,
        hit,
        mac,
    }
}

impl Node {
    /// A node over a ring of frames and a delay line, both empty, with the draws of its backoffs. It takes no memory.
    pub fn new(set: NodeSet, ring: FrameRing, line: DelayLine, draws: PickedDraws) -> Node
        requires set { IsNodeSet set }
        requires no_frames { ring.frames ≡ [] }
        requires no_nibbles { line ≡ [] }
        ensures { result ≡ node_start set ring draws }
    {
        Node {
            rise: set.rise,
            fall: set.fall,
            control: Control::start(set.control),
            status: Status::start(),
            mac: Some(Mac::start(ring, draws)),
            tx: PcsTx::start(),
            path: DataPath::start(),
            line,
            carrier: Carrier::start(),
            receiver: PcsRx::new(),
            hit: false,
            drove: false,
        }
    }

    /// Appends a frame at the back of the MAC's queue. A queue that holds as many frames as its room, the head counted,
    /// stays as it is, and hands the frame back.
    pub fn offer(&mut self, q: Queued) -> Result<(), Queued>
        ensures taken { IsOk result ↔ (length self.old.core.mac.queue.frames < self.old.core.mac.queue.room) }
        ensures full { IsErr result ↔ (length self.old.core.mac.queue.frames ≡ self.old.core.mac.queue.room) }
        ensures node { self.new ≡ node_after_offer self.old q }
        ensures err { IfErr result (λ back. (back ≡ q) × (self.new ≡ self.old)) }
    {
        match &mut self.mac {
            Some(mac) => mac.offer(q),
            None => unreachable!(),
        }
    }

    /// What control is told in a drive phase: all of it as the last tick left it.
    fn control_in(&self) -> ControlIn
        ensures { result ≡ control_in (reading_of self.now) self.now.core }
    {
        ControlIn {
            crs: self.carrier.on,
            class: self.receiver.class(),
            ready: self.path.ready(),
            begun: self.path.begun(),
            tx: self.tx.report(),
        }
    }

    /// The drive phase of a tick: control, the MAC, the transmitter and the data path step in this order, each fed with
    /// what the last tick left. The transmitter pops from the delay line before the data path pushes to it.
    #[tactic(auto, unfolding(crate::specs::Core::core_drive))]
    pub fn drive(&mut self) -> Driven
        ensures node { (self.new, result) ≡ node_drive self.old }
        ensures quarter { IfSome result.quarter IsQuarter }
    {
        let found = self.control_in();
        let (control, given) = self.control.step(found);
        self.control = control;
        self.status = self.status.step(given.active);
        let carrier = self.path.carrier(found.crs);
        let (told, number) = step_mac(&mut self.mac, carrier, self.path.collision());
        let tx_in = TxIn {
            cmd: given.cmd,
            ended: self.path.ended(),
            bad: self.path.bad(),
        };
        let quarter = step_tx(&mut self.tx, tx_in, &mut self.line);
        let data_in = data_in(found, given, self.hit, told.out);
        self.path = self.path.step(data_in, &mut self.line);
        let leaves = if self.tx.begins_first_h() {
            number
        } else {
            None
        };
        self.drove = quarter.is_some();
        Driven {
            quarter,
            note: told.note,
            ok: self.status.is_ok(),
            leaves,
        }
    }

    /// The hear phase of a tick: the carrier reading takes this tick's energy, the receiver hears, and whether the
    /// node's drive was hit is set anew. `clash` tells that several signals were heard, or any while the node drove.
    pub fn hear(&mut self, h: Heard) -> NodeHeard<'_>
        requires { IsHeard h }
        ensures* after { sem 𝓛 (LeavesNode self.entry h) }
        ensures event { event_shown result.event ≡ receive_event self.old.receiver h self.old.drove }
        ensures fits { EventFits result.event }
        ensures clash { result.clash ≡ is_clash self.old h }
    {
        let own = self.drove;
        let clash = self.sense(h);
        let event = self.receiver.hear(h, own);
        NodeHeard { event, clash }
    }

    /// What is heard sets the carrier reading and whether the node's drive was hit; it answers whether signals met.
    fn sense(&mut self, h: Heard) -> bool
        ensures node { self.new ≡ node_sense self.old h }
        ensures clash { result ≡ is_clash self.old h }
    {
        let heard = !matches!(h, Heard::Nothing);
        self.carrier = self.carrier.step(self.drove || heard, self.rise, self.fall);
        let hit = self.drove && heard;
        self.hit = hit;
        matches!(h, Heard::Many) || hit
    }

    /// Whether the node can be calm at all: it neither drove nor was hit in the last tick, reads no carrier and is not
    /// about to, is inside no burst, and its transmitter is in Quiet.
    fn is_still(&self) -> bool
        ensures { result ≡ is_still self.now }
    {
        !self.drove
            && !self.hit
            && !self.carrier.on
            && self.carrier.run == 0
            && !self.receiver.inside()
            && matches!(self.tx.report(), TxReport::Quiet)
    }

    /// What the data path is told in a tick in which the MAC gives out nothing, where control is told `found`.
    fn silent_data_in(&self, found: ControlIn) -> DataIn
        ensures { result ≡ record { active = (control_step self.now.core.control found).1.active; own = (control_step self.now.core.control found).1.own; closed = is_closed found.tx; crs = found.crs; class = found.class; hit = self.now.hit; mac = MacOut.Nothing } }
    {
        let (_, given) = self.control.step(found);
        data_in(found, given, self.hit, MacOut::Nothing)
    }

    /// For how many ticks, one after the other, the node does nothing but count, where it hears nothing and is offered
    /// nothing: the greatest number up to `most`. It is asked between `hear` and `drive`.
    ///
    /// In such a calm tick the node drives nothing, and no carrier is read, nor about to be. The MAC neither sends nor
    /// jams, and each machine, and deference, keeps the name of its state. Nothing that is kept changes but the ticks
    /// of Recover, of WaitTo, of Hysteresis, of DelayPending, of a backoff and of an interframe gap.
    ///
    /// What a machine is told in silence hangs on no count, so it is the same in each calm tick: the node is calm for
    /// as long as each of its machines is.
    pub fn calm_for(&self, most: u64) -> u64
        ensures { IsCalmFor node_after_silence IsCalmNode self.now most result }
    {
        if !self.is_still() {
            return 0;
        }
        let found = self.control_in();
        let control = self.control.calm_for(found, most);
        if control == 0 {
            return 0;
        }
        let told = self.silent_data_in(found);
        let status = self.status.calm_for(told.active, control);
        let shown = self.path.carrier(found.crs);
        let mac = mac_calm_for(&self.mac, shown, self.path.collision(), status);
        self.path.calm_for(told, mac)
    }

    /// So many ticks in which the node hears nothing and is offered nothing, at once. It asks that all of them are
    /// calm, as `calm_for` tells, and leaves what as many pairs of `drive` and `hear` leave.
    pub fn pass(&mut self, n: u64)
        requires { AreCalm node_after_silence IsCalmNode self.old n }
        ensures { self.new ≡ iterate node_after_silence n self.old }
    {
        let found = self.control_in();
        let told = self.silent_data_in(found);
        let shown = self.path.carrier(found.crs);
        pass_mac(&mut self.mac, shown, self.path.collision(), n);
        self.control = self.control.pass(found, n);
        self.status = self.status.pass(told.active, n);
        self.path = self.path.pass(told, n);
    }
}
