// Lines with equal keys are joined.
ghost use Rattle.cutting_tables.specs.Live.{AreSameOpened, AreSameExtracted, AreSameRecentred};
ghost use Rattle.pooled_cuttings.specs.Lines.{opened_terms_in, extracted_terms_in, recentred_terms_in, AreOpenLines, AreExtractLines, AreRightLines};

use crate::grove::Grove;
use crate::keys::{ExtractKey, OpenKey, RightKey};
use exact_sums::{Saturated, collect_terms};
use tree_pool::Pool;

/// Joins open lines with equal keys, and adds their coefficients.
pub(crate) fn collect_opened(grove: &Grove<'_>, lines: &mut Vec<(OpenKey, Saturated)>)
    requires { AreOpenLines grove.now lines.old.items }
    ensures lines { AreOpenLines grove.now lines.new.items }
    ensures sums { AreSameOpened (opened_terms_in grove.now lines.new.items)
        (opened_terms_in grove.now lines.old.items) }
{
    let _ = grove;
    collect_terms(lines);
}

/// Joins lines of extraction with equal keys, and adds their coefficients.
pub fn collect_extracted(grove: &Grove<'_>, lines: &mut Vec<(ExtractKey, Saturated)>)
    requires { AreExtractLines grove.now lines.old.items }
    ensures lines { AreExtractLines grove.now lines.new.items }
    ensures sums { AreSameExtracted (extracted_terms_in grove.now lines.new.items)
        (extracted_terms_in grove.now lines.old.items) }
{
    let _ = grove;
    collect_terms(lines);
}

/// Joins lines of recentring with equal keys, and adds their coefficients.
pub fn collect_recentred(pool: &Pool<'_>, lines: &mut Vec<(RightKey, Saturated)>)
    requires { AreRightLines pool.now lines.old.items }
    ensures lines { AreRightLines pool.now lines.new.items }
    ensures sums { AreSameRecentred (recentred_terms_in pool.now lines.new.items)
        (recentred_terms_in pool.now lines.old.items) }
{
    let _ = pool;
    collect_terms(lines);
}
