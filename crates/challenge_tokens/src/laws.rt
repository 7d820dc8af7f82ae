//! What follows from the rules alone. Each law is the contract of a function that does
//! nothing, so the check proves it for all texts.

ghost use Rattle.std.specs.Prelude.{◌≡◌, ◌∷◌, [], ℕ, List, None, IsTrue};
ghost use Rattle.auth_text.specs.Text.{folded};
ghost use Rattle.challenge_tokens.specs.declared.challenge.Body.TheVariants.{Token68};
ghost use Rattle.challenge_tokens.specs.Examples.{Examples};
ghost use Rattle.challenge_tokens.specs.Pieces.{field_read};
ghost use Rattle.challenge_tokens.specs.Bodies.{is_fit_body};
ghost use Rattle.challenge_tokens.specs.Forms.{is_token, is_token68};
ghost use Rattle.challenge_tokens.specs.Writing.{is_writable, challenge_text, token68_text};
ghost use Rattle.challenge_tokens.specs.Spelling.{SpelledList, SpelledChallenge, is_right_field};
ghost use Rattle.challenge_tokens.specs.Spelling.{field_text, challenges_meant};

use crate::challenge::{Body, Challenge};

/// What the rule on pieces gives of some fields, computed.
pub fn example_fields()
    ensures { Examples }
{}

/// Every spelling that RFC 7235 allows for challenges with distinct parameter names, in any letter
/// case, with blanks and empty list elements wherever they may stand and each value as a token or
/// as a quoted string, has no bad piece and reads as those challenges.
pub fn spellings_are_read()
    ensures { (field : SpelledList SpelledChallenge)
        → IsTrue (is_right_field field) → field_read (field_text field)
        ≡ record { challenges = challenges_meant field; bad_at = None } }
{}

/// What is written of a challenge reads as that challenge and no other.
#[tactic(auto, using(crate::proofs::WritingLemmas::written_again))]
pub fn challenge_reads_back(challenge: &Challenge)
    requires { IsTrue (is_writable challenge.now) }
    ensures { field_read (challenge_text challenge.now)
        ≡ record { challenges = challenge.now ∷ []; bad_at = None } }
{
    keeps_params(&challenge.body);
}

fn keeps_params(body: &Body)
    ensures { IsTrue (is_fit_body body.now) }
{
    if let Body::Params(params) = body {
        let _params = params.as_slice();
    }
}

/// A scheme and a token68 read as the challenge that they make.
pub fn token68_reads_back()
    ensures { (scheme token : List ℕ) → IsTrue (is_token scheme)
        → IsTrue (is_token68 token) → field_read (token68_text scheme token)
        ≡ record {
          challenges = record { scheme = folded scheme; body = Token68 token } ∷ [];
          bad_at = None;
        } }
{}
