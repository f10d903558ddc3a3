//! The nodes of a script as machines: before its start a node drives nothing and hears nothing.
ghost use Rattle.std.specs.Prelude.{◌≡◌, ◌≤◌, IfOk};
ghost use Rattle.t1s_world.specs.Events.{SeesEvents};
ghost use Rattle.t1s_node.specs.Node.{IsNodeSet};
ghost use Rattle.t1s_pcs_rx.specs.Leaves.{EventFits, event_shown};
ghost use Rattle.t1s_line.specs.Track.{arrive_events, begin_events, drive_events, leave_events, note_events, status_events, track_phases};
ghost use Rattle.t1s_line.specs.CalmTicks.{IsCalmTrack, IsTold, passed_track};
ghost use Rattle.t1s_line.specs.World.{draws_of, first_track, node_set_of};
ghost use Rattle.t1s_segment.specs.State.{arrival_kind};

use crate::machine::{DriveReport, HearReport, NodeMachine};
use plca_control::ControlSet;
use std::alloc::{AllocError, Global};
use t1s_line::{Event, OfferOutcome, Track, Watch};
use t1s_mac::{ListDraws, MacNote, PickedDraws, SeedDraws};
use t1s_node::{Node, NodeSet};
use t1s_pcs_rx::{Kind, RxEvent};
use t1s_ring::{DelayLine, FrameRing, Queued};
use t1s_script::{NodeLine, Script};
use t1s_symbols::{Heard, Quarter, Symbol};

/// Tells that a status became OK or ceased to be.
fn tell_status<W: Watch>(watch: &mut W, tick: u64, node: u8, before: bool, ok: bool)
    ensures { SeesEvents W.sees watch.old (status_events tick node before ok) watch.new }
{
    if ok != before {
        watch.event(&Event::StatusIs { tick, node, ok });
    }
}

/// Tells that a drive begins with this symbol.
fn tell_begin<W: Watch>(watch: &mut W, tick: u64, node: u8, symbol: Symbol)
    ensures { SeesEvents W.sees watch.old (begin_events tick node symbol) watch.new }
{
    match symbol {
        Symbol::N => watch.event(&Event::Beacon { tick, node }),
        Symbol::J => watch.event(&Event::Commit { tick, node }),
        _ => {}
    }
}

/// Tells that a drive begins or has ended.
fn tell_drive<W: Watch>(watch: &mut W, tick: u64, node: u8, before: bool, quarter: Option<Quarter>)
    ensures { SeesEvents W.sees watch.old (drive_events tick node before quarter) watch.new }
{
    match quarter {
        Some(quarter) => {
            if !before {
                tell_begin(watch, tick, node, quarter.sym);
            }
        }
        None => {
            if before {
                watch.event(&Event::Quiet { tick, node });
            }
        }
    }
}

/// Tells what became of a frame in the MAC.
fn tell_note<W: Watch>(watch: &mut W, tick: u64, node: u8, note: MacNote)
    ensures { SeesEvents W.sees watch.old (note_events tick node note) watch.new }
{
    match note {
        MacNote::Jam(number) => watch.event(&Event::Jam { tick, node, number }),
        MacNote::Drop(number) => watch.event(&Event::Drop { tick, node, number }),
        MacNote::None | MacNote::Sent(_) => {}
    }
}

/// Tells that the first H of a frame begins.
fn tell_leave<W: Watch>(watch: &mut W, tick: u64, node: u8, leaves: Option<u16>)
    ensures { SeesEvents W.sees watch.old (leave_events tick node leaves) watch.new }
{
    if let Some(number) = leaves {
        watch.event(&Event::Leave { tick, node, number });
    }
}

/// Tells of the piece that the receiver completes, and answers its kind.
fn tell_arrival<W: Watch>(watch: &mut W, tick: u64, node: u8, event: &RxEvent<'_>) -> Option<Kind>
    requires { EventFits event.now }
    ensures events { SeesEvents W.sees watch.old (arrive_events tick node (event_shown event.now)) watch.new }
    ensures kind { result ≡ arrival_kind (event_shown event.now) }
{
    match event {
        RxEvent::Nothing => None,
        RxEvent::Piece(view) => {
            watch.event(&Event::Arrive {
                tick,
                node,
                kind: view.kind,
                frame: view.frame,
            });
            Some(view.kind)
        }
    }
}

/// The draws of a node: those that the script lists for it, or those of the seed.
fn draws_of(alloc: Global, script: &Script, line: &NodeLine) -> Result<PickedDraws, AllocError>
    ensures { IfOk result (λ draws. draws ≡ draws_of script.now line.now) }
{
    Ok(match &line.draws {
        None => PickedDraws::Seed(SeedDraws::new(script.seed, line.no)),
        Some(draws) => {
            let draws = draws.as_slice();
            let mut list = Vec::with_capacity(alloc, draws.len())?;
            list.extend_from_slice(draws)?;
            PickedDraws::List(ListDraws::new(list))
        }
    })
}

/// A node of a script before its first tick, with its ring and its delay line.
pub fn first_track(alloc: Global, script: &Script, line: &NodeLine) -> Result<Track, AllocError>
    requires set { IsNodeSet (node_set_of script.now line.now) }
    requires room_low { 1 ≤ script.now.room }
    requires room_high { script.now.room ≤ 64 }
    ensures { IfOk result (λ track. track ≡ first_track script.now line.now) }
{
    let set = NodeSet {
        control: ControlSet {
            ids: line.ids,
            count: script.count,
            to: line.to,
            burst: script.burst,
        },
        rise: script.rise,
        fall: script.fall,
    };
    let ring = FrameRing::with_room(alloc, script.room)?;
    let delay = DelayLine::new(alloc)?;
    let draws = draws_of(alloc, script, line)?;
    Ok(Track {
        no: line.no,
        start: line.start,
        node: Node::new(set, ring, delay, draws),
        ok: false,
        driving: false,
    })
}

/// What comes of the drive phase of a node that has not started.
const NO_DRIVE: DriveReport = DriveReport {
    quarter: None,
    note: MacNote::None,
    ok: false,
    leaves: None,
};

/// What comes of its hear phase.
const NO_HEARING: HearReport = HearReport {
    heard: Heard::Nothing,
    drove: false,
    clash: false,
    arrival: None,
};

impl NodeMachine for Track {
    ghost phases = { track_phases };

    ghost holds = { IsTold };

    ghost calm = { IsCalmTrack };

    ghost passed = { passed_track };

    #[tactic(auto, unfolding(t1s_line::specs::Track::offer_track))]
    fn offer(&mut self, tick: u64, queued: Queued) -> OfferOutcome {
        if tick < self.start {
            return OfferOutcome::Off;
        }
        match self.node.offer(queued) {
            Ok(()) => OfferOutcome::Taken,
            Err(_) => OfferOutcome::Full,
        }
    }

    #[tactic(auto, unfolding(t1s_line::specs::Track::drive_track))]
    fn drive<W: Watch>(&mut self, tick: u64, watch: &mut W) -> DriveReport {
        if tick < self.start {
            return NO_DRIVE;
        }
        let driven = self.node.drive();
        tell_status(watch, tick, self.no, self.ok, driven.ok);
        tell_note(watch, tick, self.no, driven.note);
        tell_drive(watch, tick, self.no, self.driving, driven.quarter);
        tell_leave(watch, tick, self.no, driven.leaves);
        self.ok = driven.ok;
        self.driving = driven.quarter.is_some();
        DriveReport {
            quarter: driven.quarter,
            note: driven.note,
            ok: driven.ok,
            leaves: driven.leaves,
        }
    }

    #[tactic(auto, unfolding(t1s_line::specs::Track::hear_track))]
    fn hear<W: Watch>(&mut self, tick: u64, heard: Heard, watch: &mut W) -> HearReport {
        if tick < self.start {
            return NO_HEARING;
        }
        let no = self.no;
        let drove = self.driving;
        let told = self.node.hear(heard);
        let arrival = tell_arrival(watch, tick, no, &told.event);
        HearReport {
            heard,
            drove,
            clash: told.clash,
            arrival,
        }
    }

    fn calm_for(&self, tick: u64, most: u64) -> u64 {
        if tick == self.start {
            return 0;
        }
        if tick < self.start {
            return (self.start - tick).min(most);
        }
        self.node.calm_for(most)
    }

    fn pass(&mut self, tick: u64, n: u64) {
        if tick >= self.start {
            self.node.pass(n);
        }
    }
}
