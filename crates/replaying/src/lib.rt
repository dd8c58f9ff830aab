// The replay of a text (document 02, K5): the requests of its lines, one by one, up to the first line that is bad or refused. Each table is tested once, and stays sound, or not, from line to line: beside
// positions that are not sound days are booked all the same, up to the first line that is another request.
#![tactic(auto)]

ghost use Rattle.std.specs.Prelude.{◌≡◌};
ghost use Rattle.replaying.specs.declared.Unbooked.TheVariants.{Refused};

use rules::refusals::Refusal;

pub mod each_line; // every line in turn

// Why a line is not booked: it is no line of a request, or its request is refused.
#[derive(Clone, Copy, Debug, PartialEq, Eq)]
pub enum Unbooked {
    Bad,
    Refused(Refusal),
}

impl From<Refusal> for Unbooked {
    ghost from_gives = { λ e u. u ≡ Refused e };

    fn from(refusal: Refusal) -> Unbooked {
        Unbooked::Refused(refusal)
    }
}
