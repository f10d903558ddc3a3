//! What a node is set to, and what it tells.
use plca_control::ControlSet;
use t1s_mac::MacNote;
use t1s_pcs_rx::RxEvent;
use t1s_symbols::Quarter;

/// What a node is set to.
#[derive(Clone, Copy)]
pub struct NodeSet {
    pub control: ControlSet,
    /// How many ticks in a row have energy before carrier is read, 1 to 16.
    pub rise: u8,
    /// How many ticks in a row have none before carrier is no longer read, 1 to 16.
    pub fall: u8,
}

/// What the drive phase of a tick comes to.
#[derive(Clone, Copy, PartialEq, Eq, Debug)]
pub struct Driven {
    /// The quarter that the node drives in this tick, if it drives one.
    pub quarter: Option<Quarter>,
    /// What became of a frame in the MAC.
    pub note: MacNote,
    /// Whether the PLCA status is OK.
    pub ok: bool,
    /// The number of the frame whose first H begins in this tick.
    pub leaves: Option<u16>,
}

/// What the hear phase of a tick comes to.
#[derive(Clone, Copy, PartialEq, Eq, Debug)]
pub struct NodeHeard<'a> {
    /// What the receiver tells. Its view is lent until the next call to the node.
    pub event: RxEvent<'a>,
    /// The node heard several signals, or any signal while it drove.
    pub clash: bool,
}
