//! Whether the MAC may start a frame.
ghost use Rattle.std.specs.Prelude.{◌≡◌, ◌≤◌};
ghost use Rattle.t1s_mac.specs.CalmMac.{deference_lasts, deferring_lasts, deference_passed};
ghost use Rattle.t1s_mac.specs.DeferenceTable.{may_start, deference_step};

/// How many ticks an interframe gap lasts, once it has begun, whatever the carrier.
const INTERFRAME_GAP: u8 = 96;

/// What the MAC has seen of the carrier. It stands for the deference of IEEE 802.3 clause 4.2.3.2.1 by a rule of
/// this project's own: the interframe gap is one part of 96 ticks, which later carrier doesn't restart.
#[derive(Clone, Copy)]
pub enum Deference {
    /// There has been no carrier since the last interframe gap ran out.
    Free,
    /// The line has been busy, and no interframe gap has begun since.
    Busy,
    /// So many ticks of the interframe gap are left, of 1 to 96. It goes on under carrier, and its last tick may
    /// start a frame even so.
    Gap(u8),
}

impl Deference {
    /// Whether a frame may start in a tick with this carrier.
    pub fn may_start(self, carrier: bool) -> bool
        ensures { result ≡ may_start self carrier }
    {
        match self {
            Deference::Free => !carrier,
            Deference::Busy => false,
            Deference::Gap(left) => left == 1,
        }
    }

    /// Deference after a tick with this carrier: `sending` where the MAC began the tick in Sending or
    /// Jamming, `started` where a frame starts in it.
    pub fn after_tick(self, carrier: bool, sending: bool, started: bool) -> Deference
        ensures { result ≡ deference_step self carrier sending started }
    {
        if started {
            return Deference::Busy;
        }
        match self {
            Deference::Gap(left) if left > 1 => Deference::Gap(left - 1),
            Deference::Busy if !carrier && !sending => Deference::Gap(INTERFRAME_GAP),
            Deference::Busy => Deference::Busy,
            Deference::Free | Deference::Gap(_) if carrier => Deference::Busy,
            Deference::Free | Deference::Gap(_) => Deference::Free,
        }
    }

    /// For how many ticks with this carrier deference only counts, up to `most`, where no frame is in work or the
    /// first one backs off.
    pub fn lasts(self, carrier: bool, most: u64) -> u64
        ensures { result ≡ deference_lasts self carrier most }
    {
        match self {
            Deference::Free if !carrier => most,
            Deference::Busy if carrier => most,
            Deference::Gap(left) => u64::from(left.saturating_sub(1)).min(most),
            Deference::Free | Deference::Busy => 0,
        }
    }

    /// And where the first frame waits until it may start.
    pub fn lasts_deferring(self, carrier: bool, most: u64) -> u64
        ensures { result ≡ deferring_lasts self carrier most }
    {
        match self {
            Deference::Free => 0,
            Deference::Busy | Deference::Gap(_) => self.lasts(carrier, most),
        }
    }

    /// Deference after so many ticks in which it only counts.
    pub fn passed(self, carrier: bool, n: u64) -> Deference
        requires { n ≤ deference_lasts self carrier n }
        ensures { result ≡ deference_passed self n }
    {
        match self {
            Deference::Gap(left) => Deference::Gap(left.saturating_sub(n as u8)),
            Deference::Free | Deference::Busy => self,
        }
    }
}
