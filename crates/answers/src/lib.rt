// The answers of the change log: a `Result` of a value or a refusal, and what document 01 tells of it in numbers. Which call gives which
// answer is crate changes' matter; the table answers with some of them too. The functions carry document 01's words to the library's.
#![tactic(auto)]

ghost use Rattle.std.specs.Prelude.{◌≡◌};
ghost use Rattle.lists.specs.Search.{one};
ghost use Rattle.answers.specs.Numbers.{answer_number, mark_value, says_yes};

use refusal::Refusal;

// What a note that was entered is told.
#[derive(Clone, Copy, Debug, PartialEq, Eq)]
pub struct Entered {
    pub identity: u64,
}

// Document 01's number of an answer: 0 where the call acted, the refusal's number where it refused.
pub fn code<A: Copy>(answer: Result<A, Refusal>) -> u8
    ensures { result ≡ answer_number answer }
{
    match answer {
        Ok(_) => 0,
        Err(why) => why.number(),
    }
}

// Whether a question was answered yes; a refusal is no answer.
pub fn is_yes(told: Result<bool, Refusal>) -> bool
    ensures { result ≡ says_yes told }
{
    told.unwrap_or(false)
}

// Document 01's value of an answer: the number that is told, 0 where it is a refusal.
pub fn value(answer: Result<u64, Refusal>) -> u64
    ensures { result ≡ mark_value answer }
{
    answer.unwrap_or(0)
}

// Document 01's value of a yes or no: 1 for yes, 0 for no.
pub fn flag(yes: bool) -> u64
    ensures { result ≡ one yes }
{
    u64::from(yes)
}
