//! Laws of the reading of scripts.

ghost use Rattle.t1s_script.specs.Reading.{ReadScriptsAreValid};
ghost use Rattle.t1s_script.specs.ThinForm.{ThinScriptsHaveDefaults};

/// A script that reading gives is valid.
pub fn read_scripts_are_valid()
    ensures { ReadScriptsAreValid }
{}

/// Octets of the thin form are read as a script, and all that they don't name has its default.
pub fn thin_scripts_have_defaults()
    ensures { ThinScriptsHaveDefaults }
{}
