// How what is found is laid out in the numbers that a caller lends.
ghost use Rattle.std.specs.Prelude.{◌≡◌};
ghost use Rattle.biomass.specs.Report.{report};
ghost use Rattle.codec.specs.Refusal.{number};
ghost use Rattle.fieldbook.specs.Layout.{refusal, laid};

use codec::refusal::Refusal;

// What can be found, as its numbers.
pub(crate) trait Laid {
    type Numbers: Copy;

    ghost numbers: { Self → Self.Numbers };

    ghost zeros: { Self.Numbers };

    fn numbers(self) -> Self::Numbers
        ensures { result ≡ numbers self };

    // What stands there where nothing is found.
    fn zeros() -> Self::Numbers
        ensures { result ≡ zeros };
}

// Puts what was found into the numbers, or zeros where it was refused, and answers the number of the refusal, 0 for none.
pub(crate) fn lay<A: Laid>(found: Result<A, Refusal>, answer: &mut A::Numbers) -> u8
    ensures refusal { result ≡ refusal (report number found) }
    ensures answer { answer.new ≡ laid A.numbers A.zeros (report number found) }
{
    match found {
        Ok(it) => {
            *answer = it.numbers();
            0
        }
        Err(why) => {
            *answer = A::zeros();
            why.number()
        }
    }
}
