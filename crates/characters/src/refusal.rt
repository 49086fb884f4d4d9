// The refusals of the coproducts, as those of a sum.
ghost use Rattle.std.specs.Prelude.{◌≡◌};
ghost use Rattle.characters.specs.Asked.{refusal_of, right_refusal_of};

use character_tables::{CharacterError, CharacterPart};

/// The refusal of the extraction coproduct.
pub(crate) fn extraction_refusal(e: extraction_coproduct::CoproductError) -> CharacterError
    ensures { result ≡ refusal_of e }
{
    match e {
        extraction_coproduct::CoproductError::CoefficientTooLarge => {
            CharacterError::CoefficientTooLarge {
                which: CharacterPart::Coproduct,
            }
        }
        extraction_coproduct::CoproductError::Memory => CharacterError::Memory,
    }
}

/// The refusal of the recentring coproduct.
pub(crate) fn recentring_refusal(e: recentring_coproduct::CoproductError) -> CharacterError
    ensures { result ≡ right_refusal_of e }
{
    match e {
        recentring_coproduct::CoproductError::CoefficientTooLarge => {
            CharacterError::CoefficientTooLarge {
                which: CharacterPart::Coproduct,
            }
        }
        recentring_coproduct::CoproductError::Memory => CharacterError::Memory,
    }
}
