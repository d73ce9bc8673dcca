ghost use Rattle.std.specs.Prelude.{◌≡◌, All, Contains, IfOk, string_bytes};
ghost use Rattle.conda_encode.specs.Clauses.{encoded_of};
ghost use Rattle.conda_refute.specs.LogText.{log_text};
ghost use Rattle.conda_explain.specs.Report.{report_text};

use crate::error::ExplainErr;
use crate::reason::write_whys;
use crate::renumbering::renumbered;
use crate::shown::{Shown, show};
use conda_encode::{Encoded, flat};
use conda_refute::Log;
use std::alloc::{AllocError, Global};

/// The log's own text.
fn text_of(alloc: Global, log: &Log) -> Result<String, AllocError>
    ensures { IfOk result (λ text. string_bytes text ≡ log_text log.now) }
{
    match log.text(alloc) {
        Ok(text) => Ok(text),
        Err(_) => Err(AllocError),
    }
}

/// Why a request has no solution: `unsatisfiable:`, a line for each clause that the log uses with the
/// reason for it, in the order of the clauses, then `refutation:` and the log over these clauses,
/// which [`Log::read`] reads. A reason is `asked SPEC`, `DIST needs SPEC`, `DIST constrains SPEC`,
/// `one NAME` or `pinned SPEC`. Of equal clauses the first one's reason is given. The only error is
/// `Memory`.
///
/// [`Log::read`]: conda_refute::Log::read
pub fn explain(alloc: Global, encoded: &Encoded, log: &Log) -> Result<String, ExplainErr>
    requires encoded { encoded.now ≡ encoded_of encoded.now.pools encoded.now.asked }
    requires inputs { All (Contains encoded.now.clauses) log.now.inputs }
    ensures { IfOk result (λ text. string_bytes text
        ≡ report_text encoded.now.pools encoded.now.asked log.now) }
{
    let recs = flat(alloc, encoded.pools.as_slice())?;
    let Shown {
        whys,
        clauses,
        places,
    } = show(alloc, encoded, log)?;
    let log = Log {
        inputs: clauses,
        steps: renumbered(alloc, &places, log)?,
    };
    let mut text = String::from_str(alloc, "unsatisfiable:\n")?;
    let asked = encoded.asked.as_slice();
    write_whys(alloc, &mut text, recs.as_slice(), asked, whys.as_slice())?;
    text.push_str("refutation:\n")?;
    text.push_str(text_of(alloc, &log)?.as_str())?;
    Ok(text)
}
