// How far the text was given, and one more line of it.
ghost use Rattle.std.specs.Prelude.{◌≡◌, ◌%◌, ◌≤◌, ◌<◌, [], ◌∷◌, true, false};
ghost use Rattle.rand_pcg.specs.Lcg.{next};
ghost use Rattle.rand_pcg.specs.Pcg.{multiplier_64, pcg32};
ghost use Rattle.t1s_generator.specs.Generated.{generated_lines};
ghost use Rattle.t1s_generator.specs.Progress.{IsProgress, lines_left};

use crate::texts::{end_text, fill_text, head_text, node_text};
use rand_core::utils::NextWord;
use rand_pcg::Lcg64Xsh32;
use t1s_base::Line;

/// The stream of the generator.
const STREAM: u64 = 99;

/// How many lines stand before the nodes.
const HEADS: u8 = 3;

/// How many places a node is drawn from.
const PLACES: u32 = 13;

/// The tick from which the first frame is counted.
const FIRST_TICK: u64 = 9000;

/// How many numbers of ticks are drawn from between two frames.
const STEPS: u32 = 4000;

/// The octets of the shortest frame, without its frame check sequence.
const SHORTEST: u64 = 14;

/// How many lengths a frame is drawn from.
const LENGTHS: u32 = 200;

/// How many ticks there are after the last frame.
const REST: u64 = 200_000;

/// What was given of the text.
#[derive(Drop)]
pub(crate) struct Progress {
    seed: u64,
    nodes: u8,
    frames: u16,
    /// How many of the lines before the nodes were given.
    heads: u8,
    /// How many nodes were given.
    placed: u8,
    /// How many frames were given.
    filled: u16,
    /// Whether the last line was given.
    ended: bool,
    /// The tick of the last frame that was given; 9000 before the first.
    tick: u64,
    words: Lcg64Xsh32,
}

/// The next word, cut to the numbers below a count.
fn draw(words: &mut Lcg64Xsh32, count: u32) -> u64
    requires { 1 ≤ count }
    ensures value { result ≡ (pcg32 words.old).0 % count }
    ensures rest { words.new ≡ next 64 multiplier_64 words.old }
    ensures below { result < count }
{
    u64::from(words.next_word() % count)
}

impl Progress {
    /// Nothing was given yet.
    pub(crate) fn start(seed: u64, nodes: u8, frames: u16) -> Progress
        requires seed { seed ≤ 4294967295 }
        requires some { 1 ≤ nodes }
        requires nodes { nodes ≤ 16 }
        requires frames { frames ≤ 400 }
        ensures valid { IsProgress result }
        ensures left { lines_left result ≡ generated_lines seed nodes frames }
    {
        Progress {
            seed,
            nodes,
            frames,
            heads: 0,
            placed: 0,
            filled: 0,
            ended: false,
            tick: FIRST_TICK,
            words: Lcg64Xsh32::new(seed, STREAM),
        }
    }

    /// One of the lines before the nodes.
    fn head(&mut self, out: &mut Line)
        requires empty { out.old ≡ [] }
        requires valid { IsProgress self.old }
        requires left { self.old.heads < 3 }
        ensures valid { IsProgress self.new }
        ensures line { lines_left self.old ≡ out.new ∷ lines_left self.new }
    {
        head_text(out, self.heads, self.seed, self.nodes);
        self.heads += 1;
    }

    /// The line of a node.
    fn node(&mut self, out: &mut Line)
        requires empty { out.old ≡ [] }
        requires valid { IsProgress self.old }
        requires before { 3 ≤ self.old.heads }
        requires left { self.old.placed < self.old.nodes }
        ensures valid { IsProgress self.new }
        ensures line { lines_left self.old ≡ out.new ∷ lines_left self.new }
    {
        let place = draw(&mut self.words, PLACES);
        node_text(out, u64::from(self.placed), place);
        self.placed += 1;
    }

    /// The line of a frame.
    fn fill(&mut self, out: &mut Line)
        requires empty { out.old ≡ [] }
        requires valid { IsProgress self.old }
        requires before { 3 ≤ self.old.heads }
        requires nodes { self.old.nodes ≤ self.old.placed }
        requires left { self.old.filled < self.old.frames }
        ensures valid { IsProgress self.new }
        ensures line { lines_left self.old ≡ out.new ∷ lines_left self.new }
    {
        self.tick += draw(&mut self.words, STEPS);
        let no = draw(&mut self.words, u32::from(self.nodes));
        let len = SHORTEST + draw(&mut self.words, LENGTHS);
        let octet = draw(&mut self.words, 256) as u8;
        fill_text(out, self.tick, no, len, octet);
        self.filled += 1;
    }

    /// The last line.
    fn end(&mut self, out: &mut Line)
        requires empty { out.old ≡ [] }
        requires valid { IsProgress self.old }
        requires before { 3 ≤ self.old.heads }
        requires nodes { self.old.nodes ≤ self.old.placed }
        requires frames { self.old.frames ≤ self.old.filled }
        requires left { self.old.ended ≡ false }
        ensures valid { IsProgress self.new }
        ensures line { lines_left self.old ≡ out.new ∷ lines_left self.new }
    {
        end_text(out, self.tick + REST);
        self.ended = true;
    }

    /// The next line, and whether there was one.
    pub(crate) fn line(&mut self, out: &mut Line) -> bool
        requires empty { out.old ≡ [] }
        requires valid { IsProgress self.old }
        ensures valid { IsProgress self.new }
        ensures given { result ≡ true → lines_left self.old ≡ out.new ∷ lines_left self.new }
        ensures none { result ≡ false → (lines_left self.old ≡ []) × (lines_left self.new ≡ []) × (out.new ≡ []) }
    {
        if self.heads < HEADS {
            self.head(out);
        } else if self.placed < self.nodes {
            self.node(out);
        } else if self.filled < self.frames {
            self.fill(out);
        } else if !self.ended {
            self.end(out);
        } else {
            return false;
        }
        true
    }
}
