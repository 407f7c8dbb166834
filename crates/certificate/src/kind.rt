// The kinds of gates, and their numbers.
ghost use Rattle.std.specs.Prelude.{◌≡◌};
ghost use Rattle.certificate.specs.Kind.{kind_of};

use rules::certificate::{Gate, Uncertified};

#[derive(Clone, Copy, Debug, PartialEq, Eq)]
pub(crate) enum Kind {
    Band,
    Ceiling,
    Floor,
}

// The kind of a number; refusal 20 of any other.
impl TryFrom<u32> for Kind {
    type Error = Uncertified;

    ghost try_from_gives = { λ number kind. kind ≡ kind_of number };

    fn try_from(number: u32) -> Result<Kind, Uncertified> {
        match number {
            Gate::BAND => Ok(Kind::Band),
            Gate::CEILING => Ok(Kind::Ceiling),
            Gate::FLOOR => Ok(Kind::Floor),
            _ => Err(Uncertified::Unsound),
        }
    }
}
