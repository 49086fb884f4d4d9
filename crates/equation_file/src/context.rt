// The context of an equation: the text of its types.
ghost use Rattle.std.specs.Prelude.{◌≡◌, IfOk, IfErr};
ghost use Rattle.degree_numbers.specs.Types.{AreTypes};
ghost use Rattle.equation_file.specs.declared.refusal.FileRefusal.TheVariants.{Memory};
ghost use Rattle.type_contexts.specs.Context.{IsContextText, IsOldContextText};

use crate::refusal::FileRefusal;
use degree_numbers::Types;
use std::alloc::Global;

/// The context of an equation with these types, under which constants are kept: `context 2`, then
/// `|scaling` with its entries, `|reflect` with the directions that may be reflected or `-`,
/// `|noise NAME DEGREE GROUP` for each noise and `|kernel NAME DEGREE MOMENTS` for each kernel,
/// with the moment number or `-`. Regularities, parameters and right sides are no part of it,
/// because constants do not depend on them; the text is the same in every common denominator of the
/// degrees. The parabolic Anderson model in two dimensions has
/// `context 2|scaling 2,1,1|reflect -|noise xi -1-k xi|kernel u 2 -`. Fails only for want of
/// memory.
pub fn context_text(alloc: Global, types: &Types) -> Result<Vec<u8>, FileRefusal>
    requires { AreTypes types.now }
    ensures text { IfOk result (λ text. IsContextText types.now text.items) }
    ensures memory { IfErr result (λ e. e ≡ Memory) }
{
    let text = type_contexts::context_text(alloc, types)?;
    Ok(text)
}

/// The context in the old form, in which what is not declared is left out. The parabolic Anderson
/// model in two dimensions has `scaling 2,1,1|noise xi -1-k xi|kernel u 2`. Fails only for want of
/// memory.
pub fn old_context_text(alloc: Global, types: &Types) -> Result<Vec<u8>, FileRefusal>
    requires { AreTypes types.now }
    ensures text { IfOk result (λ text. IsOldContextText types.now text.items) }
    ensures memory { IfErr result (λ e. e ≡ Memory) }
{
    let text = type_contexts::old_context_text(alloc, types)?;
    Ok(text)
}

#[cfg(test)]
mod tests {
    use crate::{context_text, old_context_text, read_context, read_equation, read_old_context};

    const SYSTEM: &[u8] =
        b"version = 2\nscaling = [2, 1]\nreflect = [2]\n[[noise]]\nname = \"a\"\ndegree = \"-3/2 - k\"\ngroup = \"both\"\n[[noise]]\nname = \"b\"\ndegree = \"-6/4-k\"\ngroup = \"both\"\n[[noise]]\nname = \"c\"\ndegree = \"-1\"\n[[unknown]]\nname = \"u\"\ndegree = \"2\"\nregularity = \"1/3\"\nright = \"u'(0,1)^2+a\"\n[[unknown]]\nname = \"v\"\ndegree = \"2\"\nregularity = \"1/3\"\nmoments = 1\nright = \"u*b+c\"\n";

    const TEXT: &[u8] =
        b"context 2|scaling 2,1|reflect 2|noise a -3/2-k both|noise b -3/2-k both|noise c -1 c|kernel u 2 -|kernel v 2 1";

    const OLD_TEXT: &[u8] =
        b"scaling 2,1|noise a -3/2-k both|noise b -3/2-k both|noise c -1 c|kernel u 2|kernel v 2 moments 1|reflect 2";

    #[test]
    fn the_context_of_a_system_is_read_back(rt: HostRuntime) {
        let eq = read_equation(rt.alloc(), SYSTEM).expect(&rt, "equation");
        assert_eq!(rt; eq.types.units.den, 6);
        let text = context_text(rt.alloc(), &eq.types).expect(&rt, "context");
        assert_eq!(rt; text.as_slice(), TEXT);
        let types = read_context(rt.alloc(), text.as_slice()).expect(&rt, "types");
        assert_eq!(rt; types.units.den, 2);
        let again = context_text(rt.alloc(), &types).expect(&rt, "context");
        assert_eq!(rt; again.as_slice(), TEXT);
        let old = old_context_text(rt.alloc(), &types).expect(&rt, "context");
        assert_eq!(rt; old.as_slice(), OLD_TEXT);
        let types = read_old_context(rt.alloc(), old.as_slice()).expect(&rt, "types");
        let again = context_text(rt.alloc(), &types).expect(&rt, "context");
        assert_eq!(rt; again.as_slice(), TEXT);
    }
}
