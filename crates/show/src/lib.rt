//! What an answer is told as, for the worked cases.
#![tactic(auto)]

ghost use Rattle.std.specs.Prelude.{◌≡◌};
ghost use Rattle.rules.specs.Answers.{judged};

use rules::Refusal;

/// Number and place of any answer: those of its refusal, or 0 and 0.
pub fn told<T>(answer: &Result<T, Refusal>) -> (u8, usize)
    ensures { judged answer.now ≡ record { number = result.0; place = result.1 } }
{
    match answer {
        Ok(_) => (0, 0),
        Err(refusal) => (refusal.number(), refusal.place()),
    }
}
