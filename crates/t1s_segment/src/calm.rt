//! Calm ticks, over all nodes.
ghost use Rattle.std.specs.Prelude.{◌≡◌, ◌<◌, ◌≤◌, ℕ, false, length, map, replicate};
ghost use Rattle.t1s_symbols.specs.declared.Heard.TheVariants.{Nothing};
ghost use Rattle.t1s_segment.specs.Stretches.{AllCalm, OneActs};

use crate::machine::NodeMachine;
use t1s_symbols::Heard;

/// For how many ticks from this one on, up to `most`, all nodes are calm where they are offered nothing and nothing reaches
/// them. No node is asked after the first that is not calm at all.
pub fn nodes_calm_for<N: NodeMachine>(nodes: &[N], tick: u64, most: u64) -> u64
    ensures within { result ≤ most }
    ensures calm { AllCalm N.phases N.calm tick result nodes.now }
    ensures ends { result < most → OneActs N.phases N.calm tick result nodes.now }
{
    let mut calm = most;
    for node in nodes {
        calm = node.calm_for(tick, calm);
        if calm == 0 {
            return 0;
        }
    }
    calm
}

/// All nodes pass so many calm ticks, this one first, in which they drive and hear nothing.
pub fn pass_all<N: NodeMachine>(nodes: &mut [N], last: &mut [(Heard, bool)], tick: u64, n: u64)
    requires sizes { length last.old ≡ length nodes.old }
    requires calm { AllCalm N.phases N.calm tick n nodes.old }
    ensures nodes { nodes.new ≡ map (N.passed tick n) nodes.old }
    ensures last { last.new ≡ replicate (length last.old) (Nothing, false) }
{
    for j in 0..nodes.len() {
        nodes[j].pass(tick, n);
        last[j] = (Heard::Nothing, false);
    }
}
