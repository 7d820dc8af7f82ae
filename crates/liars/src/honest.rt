//! Honest runs. Each law is the contract of an empty function, and is shown by computation.

ghost use Rattle.run_rule.specs.Runs.{IsRunBy, IsLoneRun};
ghost use Rattle.liars.specs.Session.{outside, seed, one_request, two_requests};
ghost use Rattle.liars.specs.Honest.{one, two, two_callers, cut};
ghost use Rattle.liars.specs.Proxied.{proxied_roster, proxied_outside, proxied};
ghost use Rattle.liars.specs.Shared.{shared_roster, shared};
ghost use Rattle.liars.specs.Stale.{stale_outside, renewed};
ghost use Rattle.liars.specs.Drawn.{drawn_roster, drawn_outside, in_turn};

/// These are runs as they have to be.
pub fn honest_runs()
    ensures one { IsLoneRun one_request outside seed one }
    ensures two { IsLoneRun two_requests outside seed two }
    ensures two_callers { IsRunBy 2 two_requests outside seed two_callers }
    ensures proxied { IsLoneRun proxied_roster proxied_outside seed proxied }
    ensures shared { IsRunBy 2 shared_roster outside seed shared }
    ensures cut { IsLoneRun one_request outside seed cut }
    ensures renewed { IsLoneRun one_request stale_outside seed renewed }
    ensures draws { IsLoneRun drawn_roster drawn_outside seed in_turn }
{}
