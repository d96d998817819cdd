// What the edge of a frame gives: its pose at an instant, the times at which it is served. A frame that is no child is a
// root.
ghost use Rattle.std.specs.Prelude.{◌≡◌, ◌<◌};
ghost use Rattle.time.specs.Reply.{reply_by};
ghost use Rattle.buffer.specs.Answers.{refusal_of as hop_refusal_of};
ghost use Rattle.buffer.specs.Buffers.{samples};
ghost use Rattle.buffer.specs.Samples.{coverage};
ghost use Rattle.registry.specs.Store.{used_in, edge_at, tree_of};
ghost use Rattle.registry.specs.Calls.{words};
ghost use Rattle.registry.specs.Answers.{refusal_of};
ghost use Rattle.registry.specs.paths.Edges.{edge_pose, edge_coverage};

use crate::checked::Checked;
use crate::error::RegistryError;
use buffer::buffer::Buffer;
use buffer::coverage::Coverage;
use buffer::error::GetError;
use geometry::isometry::Isometry;

// Why the hop of a child gives no pose.
fn unserved(child: u32, cause: GetError) -> RegistryError
    ensures { refusal_of result ≡ hop_refusal_of child cause }
{
    match cause {
        GetError::NoTransformAvailable => RegistryError::NotFoundAt(child, None),
        GetError::OutOfRange { start, end } => RegistryError::NotFoundAt(child, Some((start, end))),
        GetError::Interpolation(cause) => cause.into(),
    }
}

impl Checked<'_> {
    // The samples of the edge that row r holds. (As in layout/head.rt, the caller knows that the row is used.)
    pub(crate) fn row(&self, r: usize) -> Buffer<'_>
        requires { r < used_in (words self.now.store) }
        ensures kind { result.kind ≡ (edge_at (words self.now.store) r).kind }
        ensures samples { samples result ≡ (edge_at (words self.now.store) r).samples }
    {
        let parts = self.parts();
        let head = parts.head();
        Buffer {
            kind: head.kind(r),
            count: head.count(r),
            instants: parts.row_instants(r),
            poses: parts.row_poses(r),
        }
    }

    // A frame's pose at an instant and its parent; none for a root.
    pub(crate) fn pose_of(
        &self,
        frame: u64,
        t: u64,
    ) -> Result<Option<(Isometry, u64)>, RegistryError>
        ensures { reply_by refusal_of result ≡ edge_pose (tree_of (words self.now.store)) frame t }
    {
        let rows = self.rows();
        let Ok(row) = rows.find_row(frame) else {
            return Ok(None);
        };
        let child = frame as u32;
        let held = self.row(row);
        match held.serve(t) {
            Ok(pose) => Ok(Some((pose, rows.parent(row)))),
            Err(cause) => Err(unserved(child, cause)),
        }
    }

    // The times at which the edge that row r holds is served. (As in layout/head.rt, the caller knows that the row is used.)
    pub(crate) fn row_coverage(&self, r: usize) -> Coverage
        requires { r < used_in (words self.now.store) }
        ensures { let e = edge_at (words self.now.store) r in result ≡ coverage e.kind e.samples }
    {
        self.row(r).coverage()
    }

    // The times at which a frame's edge is served and its parent; none for a root.
    pub(crate) fn coverage_of(&self, frame: u64) -> Option<(Coverage, u64)>
        ensures { result ≡ edge_coverage (tree_of (words self.now.store)) frame }
    {
        let rows = self.rows();
        let Ok(row) = rows.find_row(frame) else {
            return None;
        };
        let parent = rows.parent(row);
        Some((self.row_coverage(row), parent))
    }
}
