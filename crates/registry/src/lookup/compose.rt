// The poses of a path's two sides, composed while climbing by steps whose results are not tested: 3 is told of what
// comes out of them all, after every other refusal.
ghost use Rattle.std.specs.Prelude.{◌≡◌};
ghost use Rattle.std.specs.Prelude.{None};
ghost use Rattle.time.specs.Reply.{answer, reply_by, ◌then◌};
ghost use Rattle.geometry.specs.Isometry.{finite};
ghost use Rattle.registry.specs.Store.{tree_of};
ghost use Rattle.registry.specs.Answers.{pose};
ghost use Rattle.registry.specs.Calls.{words};
ghost use Rattle.registry.specs.Path.{onto, fold, combined};
ghost use Rattle.registry.specs.Answers.{refusal_of, replied};
ghost use Rattle.registry.specs.paths.Walks.{hops_to};

use crate::checked::Checked;
use crate::error::RegistryError;
use geometry::isometry::Isometry;

// The pose, on the left of what is below it.
fn onto(pose: Isometry, below: Option<Isometry>) -> Isometry
    ensures { result ≡ onto pose below }
{
    match below {
        Some(below) => pose.product(below),
        None => pose,
    }
}

impl Checked<'_> {
    // The product of the poses from the frame up to the frame `top`, or to the root; none where there is no hop.
    pub(crate) fn compose_chain(
        &self,
        frame: u64,
        top: u64,
        t: u64,
    ) -> Result<Option<Isometry>, RegistryError>
        ensures { reply_by refusal_of result ≡ fold None (hops_to (tree_of (words self.now.store)) frame top) t }
    {
        // By hand, as in `narrow_chain`: one search of a frame's row gives both its pose and its parent.
        let mut at = frame;
        let mut below = None;
        while at != top {
            let Some((pose, parent)) = self.pose_of(at, t)? else {
                return Ok(below);
            };
            below = Some(onto(pose, below));
            at = parent;
        }
        Ok(below)
    }
}

// inverse(target side) times source side, tested; an empty side is left out.
#[tactic(auto, unfolding(geometry::specs::Isometry::finite))]
pub(crate) fn combine_transforms(
    target: Option<Isometry>,
    source: Option<Isometry>,
) -> Result<Isometry, RegistryError>
    ensures { replied pose result ≡ combined target source }
{
    let Some(side) = target else {
        return Ok(source.unwrap_or(Isometry::identity()).finite()?);
    };
    let back = side.inverse()?;
    Ok(onto(back, source).finite()?)
}
