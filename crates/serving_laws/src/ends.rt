//! How a request that one caller serves ends. Each law is the contract of an empty function.

ghost use Rattle.serving_laws.specs.Laws.{NoPromptStaysOpen, OpenPromptsMayBeLost};
ghost use Rattle.serving_laws.specs.Laws.{SpentRequestsMayEnd};

/// Where memory may run out, the prompt that the request leads may be lost.
pub fn open_prompts_may_be_lost()
    ensures { OpenPromptsMayBeLost }
{}

/// Behind that, or where it leads none, the request may end.
pub fn spent_requests_may_end()
    ensures { SpentRequestsMayEnd }
{}

/// Once the request is over no prompt is open, so the next request may be served so too.
pub fn no_prompt_stays_open()
    ensures { NoPromptStaysOpen }
{}
