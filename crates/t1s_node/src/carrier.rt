//! The carrier reading of a node.
ghost use Rattle.std.specs.Prelude.{◌≡◌};
ghost use Rattle.t1s_node.specs.CarrierTable.{carrier_start, carrier_step};

/// Whether a node reads carrier, and how far it is from reading otherwise.
#[derive(Clone, Copy, Debug, PartialEq, Eq)]
pub struct Carrier {
    /// Whether carrier is read.
    pub on: bool,
    /// For how many ticks in a row the energy has differed from the reading.
    pub run: u8,
}

impl Carrier {
    /// The reading at the start of a node: off.
    pub fn start() -> Carrier
        ensures { result ≡ carrier_start }
    {
        Carrier { on: false, run: 0 }
    }

    /// The reading after one more tick, with or without energy: it turns on after `rise` ticks in a row with energy,
    /// and off after `fall` ticks in a row without.
    pub fn step(self, energy: bool, rise: u8, fall: u8) -> Carrier
        ensures { result ≡ carrier_step self energy rise fall }
    {
        if energy == self.on {
            return Carrier {
                on: self.on,
                run: 0,
            };
        }
        let limit = if self.on { fall } else { rise };
        if u16::from(self.run) + 1 >= u16::from(limit) {
            Carrier { on: energy, run: 0 }
        } else {
            Carrier {
                on: self.on,
                run: self.run + 1,
            }
        }
    }
}
