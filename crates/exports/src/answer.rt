// What the exported functions answer.
ghost use Rattle.std.specs.Prelude.{◌≡◌, Ok, Err};
ghost use Rattle.exports.specs.Exports.{answer_of, no_order};

use geometry::refusal::Refusal;

// A number with refusal 0, or the number of a refusal with number 0. (No Result: C reads it.)
#[derive(Clone, Copy)]
#[repr(C)]
pub struct Answer {
    pub refusal: u8,
    pub number: u64,
}

// In place of a refusal's number, where the number of an order names none.
const NO_ORDER: u8 = 255;

impl Answer {
    // The answer that an order's number names none.
    pub(crate) fn without_order() -> Answer
        ensures { result ≡ no_order }
    {
        Answer {
            refusal: NO_ORDER,
            number: 0,
        }
    }
}

// A number or a refusal as an answer.
impl From<Result<u64, Refusal>> for Answer {
    ghost from_gives = { λ res answer. answer ≡ answer_of res };

    fn from(res: Result<u64, Refusal>) -> Answer {
        match res {
            Ok(number) => Answer { refusal: 0, number },
            Err(refusal) => Answer {
                refusal: refusal.number(),
                number: 0,
            },
        }
    }
}
