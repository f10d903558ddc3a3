// The line that tells whether a script is fit.
ghost use Rattle.std.specs.Prelude.{◌≡◌};
ghost use Rattle.t1s_report.specs.FitnessLines.{fit_line, unfit_line, check_line};

use crate::fields::{clear, count, text};
use t1s_base::Line;
use t1s_script::{Script, Unfit, bound, fit, span};

/// Replaces the content of the line by that of a script that is fit.
fn fit_line(out: &mut Line, script: &Script)
    ensures { out.new ≡ fit_line script.now }
{
    clear(out);
    count(out, b"fit ", span(script));
    count(out, b" ", bound(script));
    text(out, b"\n");
}

/// Replaces the content of the line by that of a premise that isn't met.
fn unfit_line(out: &mut Line, unfit: &Unfit)
    ensures { out.new ≡ unfit_line unfit.now }
{
    clear(out);
    count(out, b"unfit ", u64::from(unfit.premise));
    count(out, b" ", unfit.left);
    count(out, b" ", unfit.right);
    text(out, b"\n");
}

/// Replaces the content of the line by the one that tells whether a script is fit: the span in ticks and the bound of a
/// start, or the lowest-numbered premise that isn't met and its two values.
pub fn check_line(out: &mut Line, script: &Script)
    ensures { out.new ≡ check_line script.now }
{
    match fit(script) {
        Ok(()) => fit_line(out, script),
        Err(unfit) => unfit_line(out, &unfit),
    }
}
