//! Laws of the text that is made.

ghost use Rattle.t1s_generator.specs.Law.{GeneratedScriptsAreFit};

/// For all numbers in range the text is read as a script, and this script is fit.
pub fn generated_scripts_are_fit()
    ensures { GeneratedScriptsAreFit }
{}
