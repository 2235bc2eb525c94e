//! Laws of the constants that a caller sets.
ghost use Rattle.app_calls.specs.Constants.{OneSetting};

/// A law, which does nothing when it runs: a text of names and a list of values set one list of constants at most.
pub fn one_setting()
    ensures one { OneSetting }
{}
