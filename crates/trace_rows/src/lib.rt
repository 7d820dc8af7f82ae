//! The rule of a request, tried on worked requests: the events of each are a trace, and no wrong
//! ones are.
#![tactic(auto)]

mod traces;

pub use traces::{
    cancelled_prompt, covered_paths, link_lost_twice, lost_prompt, next_nonce, nonce_again,
    one_answer, seventeen_rounds, shared_answer, sixteen_rounds, stale_nonce, three_tokens,
    two_partitions, two_targets, unsupported,
};
