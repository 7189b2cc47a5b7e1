//! Worked sessions of a sensor, proved from the definitions that its contracts cite.
#![tactic(auto)]

ghost use Rattle.worked.specs.Sessions.{Sessions};

/// The replies of the worked sessions, call by call, and the middle of -3 and 0.
pub fn bench_sessions()
    ensures { Sessions }
{}
