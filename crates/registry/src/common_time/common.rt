// Latest common time of two frames of the tree.
ghost use Rattle.std.specs.Prelude.{◌≡◌, ◌++◌, Some};
ghost use Rattle.time.specs.Reply.{refusal, nothing, ◌then◌};
ghost use Rattle.registry.specs.Store.{tree_of};
ghost use Rattle.registry.specs.Calls.{words};
ghost use Rattle.registry.specs.Path.{spans, meet};
ghost use Rattle.registry.specs.Answers.{replied, told_time};
ghost use Rattle.registry.specs.paths.Walks.{hops_to, ask_known};
ghost use Rattle.registry.specs.common_time.Spans.{common_of, span_of, narrowed_reply, narrow, narrow_by, narrowed, agreed};

use crate::checked::Checked;
use crate::error::RegistryError;
use buffer::coverage::Coverage;
use time::stamp::Stamp;

// A moving hop: its child, and its range from first to last instant.
#[derive(Clone, Copy)]
pub(crate) struct Span {
    pub(crate) child: u32,
    pub(crate) start: u64,
    pub(crate) end: u64,
}

// What moving hops have in common: their earliest end, and the first of them with the latest start.
#[derive(Clone, Copy)]
pub(crate) struct Until {
    pub(crate) end: u64,
    pub(crate) late: Span,
}

// One moving hop more. Where none moved before, all time was common.
fn narrow(common: Option<Until>, span: Span) -> Until
    ensures { common_of (Some result) ≡ narrow (common_of common) (span_of span) }
{
    let Some(Until { end, late }) = common else {
        return Until {
            end: span.end,
            late: span,
        };
    };
    let end = end.min(span.end);
    if late.start < span.start {
        return Until { end, late: span };
    }
    Until { end, late }
}

// One hop more, or its child where it is empty.
fn narrow_by(
    common: Option<Until>,
    child: u32,
    coverage: Coverage,
) -> Result<Option<Until>, RegistryError>
    ensures { narrowed_reply result ≡ narrow_by (common_of common) child coverage }
{
    match coverage {
        Coverage::AllTime => Ok(common),
        Coverage::Range { start, end } => Ok(Some(narrow(common, Span { child, start, end }))),
        Coverage::Empty => Err(RegistryError::NoCommonTime(child, None)),
    }
}

// The earliest end, where no hop starts after it.
fn agreed(common: Option<Until>) -> Result<Stamp, RegistryError>
    ensures { replied told_time result ≡ agreed (common_of common) }
{
    let Some(Until { end, late }) = common else {
        return Ok(Stamp::Static);
    };
    if end < late.start {
        return Err(RegistryError::NoCommonTime(late.child, Some((late.start, late.end))));
    }
    Ok(Stamp::At(end))
}

impl Checked<'_> {
    // The hops from the frame up to the frame `top`, or to the root.
    fn narrow_chain(
        &self,
        frame: u64,
        top: u64,
        common: Option<Until>,
    ) -> Result<Option<Until>, RegistryError>
        ensures { narrowed_reply result
            ≡ narrowed (common_of common) (hops_to (tree_of (words self.now.store)) frame top) }
    {
        // By hand, as in `compose_chain`: one search of a frame's row gives both its times and its parent.
        let mut at = frame;
        let mut common_span = common;
        while at != top {
            let Some((coverage, parent)) = self.coverage_of(at) else {
                return Ok(common_span);
            };
            common_span = narrow_by(common_span, at as u32, coverage)?;
            at = parent;
        }
        Ok(common_span)
    }

    pub(crate) fn common_time_known(&self, target: u64, source: u64) -> Result<Stamp, RegistryError>
        ensures { replied told_time result
            ≡ ask_known (tree_of (words self.now.store)) target source
            (λ a b. spans (a ++ b) then meet) (λ a b. refusal 10 nothing) }
    {
        let ends = self.rows().climb_ends(target, source);
        if ends.target != ends.source {
            return Err(RegistryError::Disconnected);
        }
        let target_common = self.narrow_chain(target, ends.target, None)?;
        let common = self.narrow_chain(source, ends.source, target_common)?;
        agreed(common)
    }
}
