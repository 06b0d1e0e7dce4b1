//! What is said of a text, as values: each with its place, and what it is.
ghost use Rattle.std.specs.Prelude.{◌≡◌};
ghost use Rattle.keymap_lint_text.specs.Heads as spec;
ghost use Rattle.keymap_lint_text.specs.Told.{counted, is_of, remark_of, remarks_of};

use keymap_lint::Severity;

/// What is said: a fault or a diagnostic, by the name of its kind, or a note on the one before it.
#[derive(Debug, Drop)]
pub enum Said {
    Judged {
        severity: Severity,
        kind: &'static [u8],
        message: Vec<u8>,
    },
    Noted {
        message: Vec<u8>,
    },
}

/// What is said at a place of a text, by its offset, or of the whole text, which has none.
#[derive(Debug, Drop)]
pub struct Remark {
    pub place: Option<usize>,
    pub said: Said,
}

/// A note at a place, if it has one.
pub(crate) fn note(place: Option<usize>, message: Vec<u8>) -> Remark
    ensures { remark_of result ≡ spec.remark place (spec.Said.Noted message.items) }
{
    Remark {
        place,
        said: Said::Noted { message },
    }
}

fn is_of_severity(remark: &Remark, severity: Severity) -> bool
    ensures { result ≡ is_of severity (remark_of remark.now) }
{
    match &remark.said {
        Said::Judged { severity: own, .. } => *own == severity,
        Said::Noted { .. } => false,
    }
}

/// How many of the remarks are faults or diagnostics of a severity.
#[tactic(auto, using(crate::proofs::Listed::count_of))]
pub fn count(remarks: &[Remark], severity: Severity) -> usize
    ensures { result ≡ counted severity (remarks_of remarks.now) }
{
    let mut count = 0;
    for remark in remarks {
        if is_of_severity(remark, severity) {
            count += 1;
        }
    }
    count
}
