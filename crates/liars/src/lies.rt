//! Runs that lie, by what they lie about. Each is refused.

ghost use Rattle.run_rule.specs.Runs.{IsRunBy, IsLoneRun};
ghost use Rattle.liars.specs.Session.{outside, seed, one_request, two_requests};
ghost use Rattle.liars.specs.Lies.{nobody_asked, not_listened, another_identity, never_asked};
ghost use Rattle.liars.specs.Lies.{asked_twice, another_password, no_identity, to_a_proxy};
ghost use Rattle.liars.specs.Lies.{to_another_host, over_the_first_link, reply_of_another_link};
ghost use Rattle.liars.specs.Lies.{broken_reply, dial_fault, read_fault, too_early, given_up};
ghost use Rattle.liars.specs.Lies.{no_note, entry_twice, untraced_call, two_as_one, another_gift};
ghost use Rattle.liars.specs.Lies.{another_partitions_gift, request_left_out, unused_text};
ghost use Rattle.liars.specs.Lies.{space_twice, text_again, another_seed};
ghost use Rattle.liars.specs.Drawn.{drawn_roster, drawn_outside, drawn_twice, out_of_turn};
ghost use Rattle.liars.specs.Drawn.{passed_over, future_epoch, never_drawn, nonce_twice};
ghost use Rattle.liars.specs.Shared.{shared_roster, cancelled_for_one, not_taken, asked_again};
ghost use Rattle.liars.specs.Proxied.{proxied_roster, proxied_outside, proxys_to_the_server};
ghost use Rattle.liars.specs.Proxied.{servers_to_the_proxy};
ghost use Rattle.liars.specs.Stale.{stale_outside, asked_anew};

/// What a prompter was asked, and what it answered.
pub fn prompts()
    ensures nobody_asked { ¬ (IsLoneRun one_request outside seed nobody_asked) }
    ensures not_listened { ¬ (IsLoneRun one_request outside seed not_listened) }
    ensures another_identity { ¬ (IsLoneRun one_request outside seed another_identity) }
    ensures never_asked { ¬ (IsLoneRun one_request outside seed never_asked) }
    ensures asked_twice { ¬ (IsLoneRun one_request outside seed asked_twice) }
    ensures asked_anew { ¬ (IsLoneRun one_request stale_outside seed asked_anew) }
{}

/// What goes out, and where.
pub fn heads()
    ensures another_password { ¬ (IsLoneRun one_request outside seed another_password) }
    ensures no_identity { ¬ (IsLoneRun one_request outside seed no_identity) }
    ensures to_a_proxy { ¬ (IsLoneRun one_request outside seed to_a_proxy) }
    ensures to_another_host { ¬ (IsLoneRun one_request outside seed to_another_host) }
    ensures over_the_first_link { ¬ (IsLoneRun one_request outside seed over_the_first_link) }
    ensures proxys_to_the_server { ¬
        (IsLoneRun proxied_roster proxied_outside seed proxys_to_the_server) }
    ensures servers_to_the_proxy { ¬
        (IsLoneRun proxied_roster proxied_outside seed servers_to_the_proxy) }
{}

/// What links show, and whether they fail.
pub fn links()
    ensures reply_of_another_link { ¬ (IsLoneRun one_request outside seed reply_of_another_link) }
    ensures broken_reply { ¬ (IsLoneRun one_request outside seed broken_reply) }
    ensures dial_fault { ¬ (IsLoneRun one_request outside seed dial_fault) }
    ensures read_fault { ¬ (IsLoneRun one_request outside seed read_fault) }
{}

/// How a request ends.
pub fn ends()
    ensures too_early { ¬ (IsLoneRun one_request outside seed too_early) }
    ensures given_up { ¬ (IsLoneRun one_request outside seed given_up) }
    ensures no_note { ¬ (IsLoneRun one_request outside seed no_note) }
{}

/// What the book was asked, and what it replied.
pub fn journals()
    ensures entry_twice { ¬ (IsLoneRun one_request outside seed entry_twice) }
    ensures untraced_call { ¬ (IsLoneRun one_request outside seed untraced_call) }
    ensures two_as_one { ¬ (IsLoneRun two_requests outside seed two_as_one) }
    ensures another_gift { ¬ (IsLoneRun one_request outside seed another_gift) }
    ensures another_partitions_gift { ¬
        (IsLoneRun two_requests outside seed another_partitions_gift) }
    ensures request_left_out { ¬ (IsLoneRun two_requests outside seed request_left_out) }
{}

/// What numbers name.
pub fn names()
    ensures unused_text { ¬ (IsLoneRun one_request outside seed unused_text) }
    ensures space_twice { ¬ (IsLoneRun one_request outside seed space_twice) }
    ensures text_again { ¬ (IsLoneRun two_requests outside seed text_again) }
{}

/// What those who wait for a prompt take, and what those get who come behind it.
pub fn waiters()
    ensures cancelled_for_one { ¬ (IsRunBy 2 shared_roster outside seed cancelled_for_one) }
    ensures not_taken { ¬ (IsRunBy 2 shared_roster outside seed not_taken) }
    ensures asked_again { ¬ (IsLoneRun shared_roster outside seed asked_again) }
{}

/// What was drawn of a nonce.
pub fn draws()
    ensures drawn_twice { ¬ (IsLoneRun drawn_roster drawn_outside seed drawn_twice) }
    ensures out_of_turn { ¬ (IsLoneRun drawn_roster drawn_outside seed out_of_turn) }
    ensures passed_over { ¬ (IsLoneRun drawn_roster drawn_outside seed passed_over) }
    ensures future_epoch { ¬ (IsLoneRun drawn_roster drawn_outside seed future_epoch) }
    ensures never_drawn { ¬ (IsLoneRun drawn_roster drawn_outside seed never_drawn) }
    ensures nonce_twice { ¬ (IsLoneRun drawn_roster drawn_outside seed nonce_twice) }
{}

/// What was handed in.
pub fn handed_over()
    ensures another_seed { ¬ (IsLoneRun one_request outside seed another_seed) }
{}
