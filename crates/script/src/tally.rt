// How the calls of a script went.
ghost use Rattle.std.specs.Prelude.{◌≡◌, map};
ghost use Rattle.script.specs.Scripts.{reply_of};
ghost use Rattle.script.specs.Tallies.{how_many, kind_of, same_kind};

use crate::call::Answer;

#[derive(Clone, Copy, PartialEq, Eq, Debug)]
pub enum Kind {
    Granted,
    Refused,
    NotTaken,
}

// How a call went, by its answer.
impl From<&Answer> for Kind {
    ghost from_gives = { λ answer kind. kind ≡ kind_of (reply_of answer.now) };

    fn from(answer: &Answer) -> Kind {
        match answer {
            Answer::Refused(_, _) | Answer::Overfull(_, _, _) => Kind::Refused,
            Answer::NotTaken(_) => Kind::NotTaken,
            _ => Kind::Granted,
        }
    }
}

// Whether the call that an answer is of went this way.
fn went(answer: &Answer, way: Kind) -> bool
    ensures { result ≡ same_kind (kind_of (reply_of answer.now)) way }
{
    Kind::from(answer) == way
}

// The number of calls that went one way.
pub fn count_kind(answers: &[Answer], sought: Kind) -> usize
    ensures { result ≡ how_many sought (map reply_of answers.now) }
{
    answers.iter().filter(|answer| went(answer, sought)).count()
}
