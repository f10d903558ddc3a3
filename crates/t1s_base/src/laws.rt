//! Laws of the definitions.
ghost use Rattle.t1s_base.specs.Numbers.{HasOneText};

/// What is written for a number below ten to the tenth is read as that number, and nothing else is.
pub fn numbers_have_one_text()
    ensures { HasOneText }
{}
