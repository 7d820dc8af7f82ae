//! Prompts of a request that one caller serves. The law is the contract of an empty function.

ghost use Rattle.lone_laws.specs.Asking.{PromptsAreTheJournals};

/// What stands for a prompt by the past of the request that led it stands for it by the journal.
pub fn prompts_are_the_journals()
    ensures { PromptsAreTheJournals }
{}
