// The frames that arrive at a node, as a classic pcap file: its header and its records.
ghost use Rattle.std.specs.Prelude.{◌≡◌, ◌+◌, ◌≤◌, ◌++◌, length};
ghost use Rattle.t1s_report.specs.PcapText.{pcap_head, four_octets, record_of, record_text};

use crate::arrival_texts::before_check;
use crate::fields::{clear, text};
use std::marker::Model;
use t1s_base::Line;

/// The ticks of a microsecond: a tick is 100 ns.
const TICKS: u64 = 10;
/// The microseconds of a second.
const SECOND: u64 = 1_000_000;

/// The header of a pcap file, 24 octets.
#[derive(Drop)]
pub struct PcapHead {
    octets: [u8; 24],
}

impl Model for PcapHead {
    ghost use Rattle.std.specs.Prelude.{ℕ, List};

    ghost Value = { List ℕ };

    ghost view = { λ h. h.octets };
}

impl PcapHead {
    /// The octets in their order.
    pub fn as_slice(&self) -> &[u8]
        ensures octets { result.now ≡ self.now }
    {
        &self.octets
    }
}

/// The header of a pcap file: times are in microseconds, and the records are Ethernet frames.
pub fn pcap_head() -> PcapHead
    ensures octets { result ≡ pcap_head }
{
    PcapHead {
        octets: [
            0xA1, 0xB2, 0xC3, 0xD4, 0x00, 0x02, 0x00, 0x04, 0x00, 0x00, 0x00, 0x00, 0x00, 0x00,
            0x00, 0x00, 0x00, 0x00, 0xFF, 0xFF, 0x00, 0x00, 0x00, 0x01,
        ],
    }
}

/// Appends a number as four octets, the high one first.
fn four_octets(out: &mut Line, n: u64)
    requires { length out.old + 4 ≤ 4096 }
    ensures value { out.new ≡ out.old ++ four_octets n }
    ensures len { length out.new ≡ length out.old + 4 }
{
    let low = (n % 4_294_967_296) as u32;
    text(out, &low.to_be_bytes());
}

/// Replaces the content of the line by the record of a frame that arrives at a tick: its time in seconds and
/// microseconds, ten ticks in each, twice the number of the octets before its frame check sequence, and these octets. The frame
/// has its frame check sequence, so 64 to 1522 octets. Each number has four octets, so of a tick of 2^32 seconds and more the
/// low 32 bits of the seconds stand.
pub fn pcap_record(out: &mut Line, tick: u64, frame: &[u8])
    requires { length frame.now ≤ 1522 }
    ensures { out.new ≡ record_text (record_of tick frame.now) }
{
    let time = tick / TICKS;
    let octets = before_check(frame);
    let count = octets.len() as u64;
    clear(out);
    four_octets(out, time / SECOND);
    four_octets(out, time % SECOND);
    four_octets(out, count);
    four_octets(out, count);
    text(out, octets);
}
