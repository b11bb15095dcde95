//! What the definitions mean, proved of every script: the calls do nothing.

ghost use Rattle.session_script.specs.OneText.{OneReplayText};

/// One text fits each script, and it ends in one way.
pub fn one_replay_text()
    ensures law { OneReplayText }
{}
