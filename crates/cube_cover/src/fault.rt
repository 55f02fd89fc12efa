//! Why there are no disjuncts.
use cv_base::Memory;

/// Why there are no disjuncts: the tree is true somewhere where no chosen cube is, or memory was wanted and not found.
#[derive(Clone, Copy, Debug, PartialEq, Eq)]
pub enum CoverFault {
    Cover,
    Memory,
}

impl From<Memory> for CoverFault {
    ghost use Rattle.std.specs.Prelude.{◌≡◌};
    ghost use Rattle.cube_cover.specs.declared.fault.CoverFault.TheVariants as CoverFault;

    ghost from_gives = { λ _ fault. fault ≡ CoverFault.Memory };

    fn from(_: Memory) -> CoverFault {
        CoverFault::Memory
    }
}
