//! Worked requests. Each law is the contract of an empty function, and is shown by computation.

ghost use Rattle.trace_rows.specs.Right.{IsRight};
ghost use Rattle.trace_rows.specs.BasicSessions.{one_answer_setting, one_answer_links};
ghost use Rattle.trace_rows.specs.BasicSessions.{one_answer_1_request, one_answer_1};
ghost use Rattle.trace_rows.specs.BasicSessions.{covered_paths_setting, covered_paths_links};
ghost use Rattle.trace_rows.specs.BasicSessions.{covered_paths_1_request, covered_paths_1};
ghost use Rattle.trace_rows.specs.BasicSessions.{covered_paths_2_request, covered_paths_2};
ghost use Rattle.trace_rows.specs.BasicSessions.{covered_paths_3_request, covered_paths_3};
ghost use Rattle.trace_rows.specs.BasicSessions.{covered_paths_4_request, covered_paths_4};
ghost use Rattle.trace_rows.specs.BasicSessions.{two_targets_setting, two_targets_links};
ghost use Rattle.trace_rows.specs.BasicSessions.{two_targets_1_request, two_targets_1};
ghost use Rattle.trace_rows.specs.BasicSessions.{two_partitions_setting, two_partitions_links};
ghost use Rattle.trace_rows.specs.BasicSessions.{two_partitions_1_request, two_partitions_1};
ghost use Rattle.trace_rows.specs.BasicSessions.{two_partitions_2_request, two_partitions_2};
ghost use Rattle.trace_rows.specs.BasicSessions.{unsupported_setting, unsupported_links};
ghost use Rattle.trace_rows.specs.BasicSessions.{unsupported_1_request, unsupported_1};
ghost use Rattle.trace_rows.specs.BasicSessions.{unsupported_2_request, unsupported_2};
ghost use Rattle.trace_rows.specs.BasicSessions.{unsupported_3_request, unsupported_3};
ghost use Rattle.trace_rows.specs.DigestSessions.{stale_nonce_setting, stale_nonce_links};
ghost use Rattle.trace_rows.specs.DigestSessions.{stale_nonce_1_request, stale_nonce_1};
ghost use Rattle.trace_rows.specs.DigestSessions.{nonce_again_setting, nonce_again_links};
ghost use Rattle.trace_rows.specs.DigestSessions.{nonce_again_1_request, nonce_again_1};
ghost use Rattle.trace_rows.specs.DigestSessions.{nonce_again_2_request, nonce_again_2};
ghost use Rattle.trace_rows.specs.DigestSessions.{next_nonce_setting, next_nonce_links};
ghost use Rattle.trace_rows.specs.DigestSessions.{next_nonce_1_request, next_nonce_1};
ghost use Rattle.trace_rows.specs.DigestSessions.{next_nonce_2_request, next_nonce_2};
ghost use Rattle.trace_rows.specs.NegotiateSessions.{three_tokens_setting, three_tokens_links};
ghost use Rattle.trace_rows.specs.NegotiateSessions.{three_tokens_1_request, three_tokens_1};
ghost use Rattle.trace_rows.specs.NegotiateSessions.{link_lost_twice_setting};
ghost use Rattle.trace_rows.specs.NegotiateSessions.{link_lost_twice_links};
ghost use Rattle.trace_rows.specs.NegotiateSessions.{link_lost_twice_1_request, link_lost_twice_1};
ghost use Rattle.trace_rows.specs.RoundsSessions.{seventeen_rounds_setting, seventeen_rounds_links};
ghost use Rattle.trace_rows.specs.RoundsSessions.{seventeen_rounds_1_request, seventeen_rounds_1};
ghost use Rattle.trace_rows.specs.RoundsSessions.{sixteen_rounds_setting, sixteen_rounds_links};
ghost use Rattle.trace_rows.specs.RoundsSessions.{sixteen_rounds_1_request, sixteen_rounds_1};
ghost use Rattle.trace_rows.specs.SharedSessions.{cancelled_prompt_setting, cancelled_prompt_links};
ghost use Rattle.trace_rows.specs.SharedSessions.{cancelled_prompt_1_request, cancelled_prompt_1};
ghost use Rattle.trace_rows.specs.SharedSessions.{cancelled_prompt_2_request, cancelled_prompt_2};
ghost use Rattle.trace_rows.specs.SharedSessions.{cancelled_prompt_3_request, cancelled_prompt_3};
ghost use Rattle.trace_rows.specs.SharedSessions.{lost_prompt_setting, lost_prompt_links};
ghost use Rattle.trace_rows.specs.SharedSessions.{lost_prompt_1_request, lost_prompt_1};
ghost use Rattle.trace_rows.specs.SharedSessions.{lost_prompt_2_request, lost_prompt_2};
ghost use Rattle.trace_rows.specs.SharedSessions.{lost_prompt_3_request, lost_prompt_3};
ghost use Rattle.trace_rows.specs.SharedSessions.{shared_answer_setting, shared_answer_links};
ghost use Rattle.trace_rows.specs.SharedSessions.{shared_answer_1_request, shared_answer_1};
ghost use Rattle.trace_rows.specs.SharedSessions.{shared_answer_2_request, shared_answer_2};
ghost use Rattle.trace_rows.specs.SharedSessions.{shared_answer_3_request, shared_answer_3};

/// One prompt answers a Basic challenge.
pub fn one_answer()
    ensures { IsRight (one_answer_setting 1 one_answer_1_request) one_answer_links one_answer_1 }
{}

/// A gift goes out at once to the paths that it covers, and to no other.
pub fn covered_paths()
    ensures first { IsRight
        (covered_paths_setting 1 covered_paths_1_request) covered_paths_links covered_paths_1 }
    ensures second { IsRight
        (covered_paths_setting 2 covered_paths_2_request) covered_paths_links covered_paths_2 }
    ensures third { IsRight
        (covered_paths_setting 3 covered_paths_3_request) covered_paths_links covered_paths_3 }
    ensures fourth { IsRight
        (covered_paths_setting 4 covered_paths_4_request) covered_paths_links covered_paths_4 }
{}

/// A proxy and a server with one realm have each their own identity.
pub fn two_targets()
    ensures { IsRight
        (two_targets_setting 1 two_targets_1_request) two_targets_links two_targets_1 }
{}

/// One place in two partitions is asked for twice.
pub fn two_partitions()
    ensures first { IsRight (two_partitions_setting 1 two_partitions_1_request)
        two_partitions_links two_partitions_1 }
    ensures second { IsRight (two_partitions_setting 2 two_partitions_2_request)
        two_partitions_links two_partitions_2 }
{}

/// A scheme that is not known, a proxy that is not there, and a link without a reply.
pub fn unsupported()
    ensures first { IsRight
        (unsupported_setting 1 unsupported_1_request) unsupported_links unsupported_1 }
    ensures second { IsRight
        (unsupported_setting 2 unsupported_2_request) unsupported_links unsupported_2 }
    ensures third { IsRight
        (unsupported_setting 3 unsupported_3_request) unsupported_links unsupported_3 }
{}

/// A stale nonce is renewed without a prompt.
pub fn stale_nonce()
    ensures { IsRight
        (stale_nonce_setting 1 stale_nonce_1_request) stale_nonce_links stale_nonce_1 }
{}

/// The counts of a nonce go on over rejected identities and another realm.
pub fn nonce_again()
    ensures first { IsRight
        (nonce_again_setting 1 nonce_again_1_request) nonce_again_links nonce_again_1 }
    ensures second { IsRight
        (nonce_again_setting 2 nonce_again_2_request) nonce_again_links nonce_again_2 }
{}

/// The next nonce of an answer is used from the next request on.
pub fn next_nonce()
    ensures first { IsRight
        (next_nonce_setting 1 next_nonce_1_request) next_nonce_links next_nonce_1 }
    ensures second { IsRight
        (next_nonce_setting 2 next_nonce_2_request) next_nonce_links next_nonce_2 }
{}

/// The tokens of a context go over one link; a link that closes begins a new context.
pub fn three_tokens()
    ensures { IsRight
        (three_tokens_setting 1 three_tokens_1_request) three_tokens_links three_tokens_1 }
{}

/// The second lost link ends the request.
pub fn link_lost_twice()
    ensures { IsRight (link_lost_twice_setting 1 link_lost_twice_1_request)
        link_lost_twice_links link_lost_twice_1 }
{}

/// The seventeenth challenge ends the request.
pub fn seventeen_rounds()
    ensures { IsRight (seventeen_rounds_setting 1 seventeen_rounds_1_request)
        seventeen_rounds_links seventeen_rounds_1 }
{}

/// Sixteen challenges may be answered.
pub fn sixteen_rounds()
    ensures { IsRight (sixteen_rounds_setting 1 sixteen_rounds_1_request)
        sixteen_rounds_links sixteen_rounds_1 }
{}

/// Those who wait for a prompt take its cancel.
pub fn cancelled_prompt()
    ensures first { IsRight (cancelled_prompt_setting 1 cancelled_prompt_1_request)
        cancelled_prompt_links cancelled_prompt_1 }
    ensures second { IsRight (cancelled_prompt_setting 2 cancelled_prompt_2_request)
        cancelled_prompt_links cancelled_prompt_2 }
    ensures third { IsRight (cancelled_prompt_setting 3 cancelled_prompt_3_request)
        cancelled_prompt_links cancelled_prompt_3 }
{}

/// Those who wait for a prompt that failed take its loss.
pub fn lost_prompt()
    ensures first { IsRight
        (lost_prompt_setting 1 lost_prompt_1_request) lost_prompt_links lost_prompt_1 }
    ensures second { IsRight
        (lost_prompt_setting 2 lost_prompt_2_request) lost_prompt_links lost_prompt_2 }
    ensures third { IsRight
        (lost_prompt_setting 3 lost_prompt_3_request) lost_prompt_links lost_prompt_3 }
{}

/// Those who wait for a prompt take its one answer.
pub fn shared_answer()
    ensures first { IsRight
        (shared_answer_setting 1 shared_answer_1_request) shared_answer_links shared_answer_1 }
    ensures second { IsRight
        (shared_answer_setting 2 shared_answer_2_request) shared_answer_links shared_answer_2 }
    ensures third { IsRight
        (shared_answer_setting 3 shared_answer_3_request) shared_answer_links shared_answer_3 }
{}
