ghost use Rattle.std.specs.Prelude.{◌≡◌};
ghost use Rattle.frame.specs.Bounds.{turned, free_bound};

use crate::bound::WindowFrameBound;

impl WindowFrameBound {
    // The bound with PRECEDING for FOLLOWING, and back.
    pub fn turn(self) -> WindowFrameBound
        ensures { result ≡ turned self }
    {
        match self {
            WindowFrameBound::UnboundedPreceding => WindowFrameBound::UnboundedFollowing,
            WindowFrameBound::Preceding(n) => WindowFrameBound::Following(n),
            WindowFrameBound::CurrentRow => WindowFrameBound::CurrentRow,
            WindowFrameBound::Following(n) => WindowFrameBound::Preceding(n),
            WindowFrameBound::UnboundedFollowing => WindowFrameBound::UnboundedPreceding,
        }
    }

    // Whether the bound has no offset.
    pub(crate) fn is_free(self) -> bool
        ensures { result ≡ free_bound self }
    {
        !matches!(
            self,
            WindowFrameBound::Preceding(_) | WindowFrameBound::Following(_)
        )
    }
}
