// The lines of a generated script.
ghost use Rattle.std.specs.Prelude.{◌≡◌, ◌≤◌, [], ◌∷◌, true, false};
ghost use Rattle.t1s_generator.specs.Generated.{generated_lines};

use crate::progress::Progress;
use std::marker::Model;
use t1s_base::Line;

/// The lines of a script that is made from a seed, a number of nodes and a number of frames. Contracts see the
/// lines that are not given yet, each a list of its octets with its LF.
#[derive(Drop)]
pub struct Generator {
    progress: Progress,
}

impl Model for Generator {
    ghost use Rattle.std.specs.Prelude.{List, ℕ};
    ghost use Rattle.t1s_generator.specs.Progress.{IsProgress, lines_left};

    ghost Value = { List (List ℕ) };

    ghost view = { λ g. lines_left g.progress };

    ghost invariant = { λ g. IsProgress g.progress };
}

impl Generator {
    /// All lines of the script of a seed of 4,294,967,295 at most, 1 to 16 nodes and 400 frames at most. It takes
    /// no memory.
    pub fn new(seed: u64, nodes: u8, frames: u16) -> Generator
        requires seed { seed ≤ 4294967295 }
        requires some { 1 ≤ nodes }
        requires nodes { nodes ≤ 16 }
        requires frames { frames ≤ 400 }
        ensures { result ≡ generated_lines seed nodes frames }
    {
        Generator {
            progress: Progress::start(seed, nodes, frames),
        }
    }

    /// Replaces the content of the line by the next line with its LF, and answers true. Where every line was
    /// given it answers false, and the line is empty. It takes no memory.
    pub fn line(&mut self, out: &mut Line) -> bool
        ensures given { result ≡ true → self.old ≡ out.new ∷ self.new }
        ensures none { result ≡ false → (self.old ≡ []) × (self.new ≡ []) × (out.new ≡ []) }
    {
        out.clear();
        self.progress.line(out)
    }
}
