//! What an engine plays: nodes that take offers, and drive and hear once a tick.
use t1s_line::{OfferOutcome, Watch};
use t1s_mac::MacNote;
use t1s_pcs_rx::Kind;
use t1s_ring::Queued;
use t1s_symbols::{Heard, Quarter};

/// What the engine takes of the drive phase of a node.
#[derive(Clone, Copy, PartialEq, Eq, Debug)]
pub struct DriveReport {
    /// What the node drives.
    pub quarter: Option<Quarter>,
    /// What became of a frame in its MAC.
    pub note: MacNote,
    /// Whether its PLCA status is OK.
    pub ok: bool,
    /// The number of the frame whose first H begins in this tick.
    pub leaves: Option<u16>,
}

/// What the engine takes of the hear phase of a node.
#[derive(Clone, Copy, PartialEq, Eq, Debug)]
pub struct HearReport {
    /// What the node heard in this tick.
    pub heard: Heard,
    /// Whether it drove in it.
    pub drove: bool,
    /// Whether signals met: it heard several, or any while it drove.
    pub clash: bool,
    /// The kind of the piece that its receiver completes.
    pub arrival: Option<Kind>,
}

/// A node as an engine plays it. What an offer and the two phases of a tick leave of it, and what comes of them, is a
/// machine of the world.
pub trait NodeMachine {
    ghost use Rattle.std.specs.Prelude.{◌≡◌, ℕ, IfSome};
    ghost use Rattle.t1s_symbols.specs.CalmSteps.{AreCalm, IsCalmFor};
    ghost use Rattle.t1s_symbols.specs.Ranges.{IsHeard, IsQuarter};
    ghost use Rattle.t1s_world.specs.Events.{SeesEvents};
    ghost use Rattle.t1s_line.specs.Outcomes.{NodePhases};
    ghost use Rattle.t1s_line.specs.CalmRuns.{IsCalmAt, silent_step};
    ghost use Rattle.t1s_segment.specs.State.{arrival_kind};

    ghost phases: { NodePhases Self };

    // what holds of each node in a run
    ghost holds: { Self → Type 0 };

    // a tick in which nothing is offered to the node and it hears nothing is calm for it
    ghost calm: { ℕ → Self → Type 0 };

    // what is left of a node that passes calm ticks: from which tick on, and how many
    ghost passed: { ℕ → ℕ → Self → Self };

    /// An offer in a tick, before its drive phase: the frame stands at the back of the node's queue, or is refused.
    fn offer(&mut self, tick: u64, queued: Queued) -> OfferOutcome
        ensures node { self.new ≡ (phases.offer tick queued self.old).0 }
        ensures outcome { result ≡ (phases.offer tick queued self.old).1 };

    /// The drive phase of a tick. The watch is told what happens in it.
    fn drive<W: Watch>(&mut self, tick: u64, watch: &mut W) -> DriveReport
        ensures node { self.new ≡ (phases.drive tick self.old).0 }
        ensures quarter { result.quarter ≡ (phases.drive tick self.old).1.quarter }
        ensures note { result.note ≡ (phases.drive tick self.old).1.note }
        ensures ok { result.ok ≡ (phases.drive tick self.old).1.ok }
        ensures leaves { result.leaves ≡ (phases.drive tick self.old).1.leaves }
        ensures range { IfSome result.quarter IsQuarter }
        ensures events { SeesEvents W.sees watch.old (phases.drive tick self.old).1.events watch.new };

    /// The hear phase of a tick, with what arrives at the node. The watch is told what happens in it.
    fn hear<W: Watch>(&mut self, tick: u64, heard: Heard, watch: &mut W) -> HearReport
        requires { IsHeard heard }
        ensures node { self.new ≡ (phases.hear tick heard self.old).0 }
        ensures heard { result.heard ≡ (phases.hear tick heard self.old).1.heard }
        ensures drove { result.drove ≡ (phases.hear tick heard self.old).1.drove }
        ensures clash { result.clash ≡ (phases.hear tick heard self.old).1.clash }
        ensures arrival { result.arrival ≡ arrival_kind (phases.hear tick heard self.old).1.event }
        ensures range { IsHeard result.heard }
        ensures events { SeesEvents W.sees watch.old (phases.hear tick heard self.old).1.events watch.new };

    /// For how many ticks from this one on, up to `most`, the node is calm where it is offered nothing and hears nothing.
    fn calm_for(&self, tick: u64, most: u64) -> u64
        ensures { IsCalmFor (silent_step phases) (IsCalmAt calm) (tick, self.now) most result };

    /// So many such ticks, this one first, at once. It asks that all of them are calm.
    fn pass(&mut self, tick: u64, n: u64)
        requires { AreCalm (silent_step phases) (IsCalmAt calm) (tick, self.old) n }
        ensures { self.new ≡ passed tick n self.old };
}
