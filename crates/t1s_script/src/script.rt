// What a script holds.
ghost use Rattle.std.specs.Prelude.{◌≡◌, ◌++◌, ◌∷◌, [], MatchResult, OnOk};
ghost use Rattle.t1s_script.specs.Taps.{tap_of};

use std::alloc::{AllocError, Global};
use std::marker::Model;
use t1s_base::Ids;
use t1s_frame::Frame;
use t1s_harness::Tap;

/// The draws that a script lists for a node, in the order in which backoffs take them.
#[derive(Drop)]
pub struct DrawList {
    items: Vec<u16>,
}

impl Model for DrawList {
    ghost use Rattle.std.specs.Prelude.{List, ℕ};

    ghost Value = { List ℕ };

    ghost view = { λ l. l.items.items };
}

impl DrawList {
    /// The list of these draws. It takes no memory.
    pub fn of(items: Vec<u16>) -> DrawList
        ensures { result ≡ items.items }
    {
        DrawList { items }
    }

    /// No draw. It takes no memory.
    pub(crate) fn none(alloc: Global) -> DrawList
        ensures { result ≡ [] }
    {
        DrawList::of(Vec::new(alloc))
    }

    /// The draws, one after the other.
    pub fn as_slice(&self) -> &[u16]
        ensures { result.now ≡ self.now }
    {
        self.items.as_slice()
    }

    /// One more draw.
    pub(crate) fn push(&mut self, draw: u16) -> Result<(), AllocError>
        ensures { OnOk result (self.new ≡ self.old ++ draw ∷ []) }
    {
        Ok(self.items.push(draw)?)
    }
}

/// A node of a script.
#[derive(Drop)]
pub struct NodeLine {
    /// The node's number, at most [`t1s_base::LAST_NODE`].
    pub no: u8,
    /// Its PLCA node IDs, that of its `node` line first.
    pub ids: Ids,
    /// The place on the trunk at which its stub begins, in whole bit times from one end.
    pub place: u8,
    /// The length of its stub, 0 to 31 whole bit times.
    pub stub: u8,
    /// Its opportunity timer, 16 to 255 ticks: that of its `tonode` line, else that of the script.
    pub to: u8,
    /// The tick at which it starts, at most [`t1s_base::MOST_TICKS`].
    pub start: u64,
    /// The draws of its backoffs, 0 to 1023 each and at most 64, if the script lists them. Without such a
    /// list the seed gives them.
    pub draws: Option<DrawList>,
}

impl NodeLine {
    /// Where it hangs on the pair.
    pub fn tap(&self) -> Tap
        ensures { result ≡ tap_of self.now }
    {
        Tap {
            place: self.place,
            stub: self.stub,
        }
    }
}

/// The nodes of a script, in ascending node number.
#[derive(Drop)]
pub struct NodeList {
    items: Vec<NodeLine>,
}

impl Model for NodeList {
    ghost use Rattle.std.specs.Prelude.{List};
    ghost use Rattle.t1s_script.specs.declared.script.NodeLine.{NodeLine};

    ghost Value = { List NodeLine };

    ghost view = { λ l. l.items.items };
}

impl NodeList {
    /// The list of these nodes. It takes no memory.
    pub fn of(items: Vec<NodeLine>) -> NodeList
        ensures { result ≡ items.items }
    {
        NodeList { items }
    }

    /// The nodes, one after the other.
    pub fn as_slice(&self) -> &[NodeLine]
        ensures { result.now ≡ self.now }
    {
        self.items.as_slice()
    }
}

/// What is done at a tick.
#[derive(Drop)]
pub enum Deed {
    /// A frame is offered to a node.
    Offer {
        /// The offer's number, counted from 1.
        number: u16,
        /// The number of the node.
        node: u8,
        /// What is offered.
        frame: Frame,
    },
    /// A noise begins, which every node hears as energy without symbols.
    Noise {
        /// It lasts up to this tick, which is heard without it.
        until: u64,
    },
}

/// An act of a script.
#[derive(Drop)]
pub struct Act {
    /// The tick at which it is done.
    pub tick: u64,
    /// What is done.
    pub deed: Deed,
}

/// The acts of a script, in the order of their ticks.
#[derive(Drop)]
pub struct ActList {
    items: Vec<Act>,
}

impl Model for ActList {
    ghost use Rattle.std.specs.Prelude.{List};
    ghost use Rattle.t1s_script.specs.declared.script.Act.{Act};

    ghost Value = { List Act };

    ghost view = { λ l. l.items.items };
}

impl ActList {
    /// The list of these acts. It takes no memory.
    pub fn of(items: Vec<Act>) -> ActList
        ensures { result ≡ items.items }
    {
        ActList { items }
    }

    /// No act. It takes no memory.
    pub(crate) fn none(alloc: Global) -> ActList
        ensures { result ≡ [] }
    {
        ActList::of(Vec::new(alloc))
    }

    /// The acts, one after the other.
    pub fn as_slice(&self) -> &[Act]
        ensures { result.now ≡ self.now }
    {
        self.items.as_slice()
    }

    /// One more act. Out of memory leaves the list as it was.
    pub(crate) fn push(&mut self, act: Act) -> Result<(), AllocError>
        ensures { MatchResult result (λ _. self.new ≡ self.old ++ act ∷ []) (λ _. self.new ≡ self.old) }
    {
        Ok(self.items.push(act)?)
    }
}

/// What a segment is to be run with. What a script doesn't say has its default.
#[derive(Drop)]
pub struct Script {
    /// The PLCA node count, 1 to 254 opportunities in a cycle.
    pub count: u8,
    /// The opportunity timer, 16 to 255 ticks.
    pub to: u8,
    /// After how many ticks in a row with energy carrier is read, 1 to 16.
    pub rise: u8,
    /// After how many ticks in a row without energy it is read no more, 1 to 16.
    pub fall: u8,
    /// How many further frames may follow the first one of an opportunity.
    pub burst: u8,
    /// How many frames the ring of a node holds, 1 to 64.
    pub room: u8,
    /// The seed of the draws, at most 4,294,967,295.
    pub seed: u64,
    /// The nodes, from one to [`t1s_base::MOST_NODES`].
    pub nodes: NodeList,
    /// The acts, at most 4096 and each below the end.
    pub acts: ActList,
    /// The run has the ticks 0 to `end` - 1; `end` is 1 to [`t1s_base::MOST_TICKS`].
    pub end: u64,
}
