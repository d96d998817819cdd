// Where the climbs from two frames end.
ghost use Rattle.std.specs.Prelude.{◌≡◌, ◌<◌, true, length};
ghost use Rattle.registry.specs.Tree.{ancestors};
ghost use Rattle.registry.specs.Sound.{climb, no_circle};
ghost use Rattle.registry.specs.Path.{climb_end};
ghost use Rattle.registry.specs.paths.Edges.{OfTree};
ghost use Rattle.registry.specs.paths.Walks.{steps_to_root};

use crate::rows::Rows;

// Where the climbs from two frames end: both at the frame where they meet, or each at its root.
#[derive(Clone, Copy, Debug, PartialEq, Eq)]
pub struct ClimbEnds {
    pub target: u64,
    pub source: u64,
}

// A climb: the frame where it stands, and how many frames are above that.
#[derive(Clone, Copy)]
struct Climb {
    frame: u64,
    above: usize,
}

impl Rows<'_> {
    // The steps of the climb from a frame to its root, none where it meets the goal. It takes at most
    // as many steps as there are rows.
    pub(crate) fn steps_to_root(&self, frame: u64, goal: u64) -> Option<usize>
        ensures { OfTree self.now.head.now (λ t. result ≡ steps_to_root t frame goal) }
    {
        let used = self.used();
        let mut at = frame;
        for steps in 0..used {
            let Some(parent) = self.parent_of(at) else {
                return Some(steps);
            };
            at = parent;
            if at == goal {
                return None;
            }
        }
        Some(used)
    }

    // The frame's parent, or the frame itself where it is no child.
    fn step_up(&self, frame: u64) -> u64
        ensures { OfTree self.now.head.now (λ t. result ≡ climb 1 t frame) }
    {
        self.parent_of(frame).unwrap_or(frame)
    }

    // Whichever climb has more frames above it goes on, until they meet or are both at a root.
    fn climb_both(&self, target: Climb, source: Climb) -> ClimbEnds
        requires { OfTree self.now.head.now (λ t. target.above ≡ length (ancestors t target.frame))
            × OfTree self.now.head.now (λ t. source.above ≡ length (ancestors t source.frame)) }
        ensures { OfTree self.now.head.now (λ t. no_circle t ≡ true → (result.target ≡ climb_end t target.frame source.frame) × (result.source ≡ climb_end t source.frame target.frame)) }
    {
        let mut f = target;
        let mut g = source;
        // Each turn moves one of the two, so this is no range.
        while f.frame != g.frame {
            if f.above < g.above {
                g.frame = self.step_up(g.frame);
                g.above -= 1;
            } else {
                if f.above == 0 {
                    break;
                }
                f.frame = self.step_up(f.frame);
                f.above -= 1;
            }
        }
        ClimbEnds {
            target: f.frame,
            source: g.frame,
        }
    }

    // Where one is above the other, that is the frame where they meet, and the climb to it suffices.
    pub(crate) fn climb_ends(&self, target: u64, source: u64) -> ClimbEnds
        ensures { OfTree self.now.head.now (λ t. no_circle t ≡ true → (result.target ≡ climb_end t target source) × (result.source ≡ climb_end t source target)) }
    {
        let Some(above_target) = self.steps_to_root(target, source) else {
            return ClimbEnds {
                target: source,
                source,
            };
        };
        let Some(above_source) = self.steps_to_root(source, target) else {
            return ClimbEnds {
                target,
                source: target,
            };
        };
        self.climb_both(
            Climb {
                frame: target,
                above: above_target,
            },
            Climb {
                frame: source,
                above: above_source,
            },
        )
    }
}
