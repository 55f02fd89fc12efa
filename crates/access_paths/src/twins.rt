//! Literals, cubes and families can be made twice.
use crate::term::{Cube, Family, Literal};
use cv_base::Memory;
use cv_fix::Twin;
use std::alloc::Global;

impl Twin for Literal {
    ghost use Rattle.access_paths.specs.{same_literal};

    ghost exact = { same_literal };

    fn twin(&self, alloc: Global) -> Result<Literal, Memory> {
        Ok(Literal {
            same: self.same,
            less: self.less.twin(alloc).map_err(|_| Memory)?,
            more: self.more.twin(alloc).map_err(|_| Memory)?,
        })
    }
}

impl Twin for Cube {
    ghost use Rattle.access_paths.specs.{same_cube};

    ghost exact = { same_cube };

    fn twin(&self, alloc: Global) -> Result<Cube, Memory> {
        Ok(Cube {
            literals: self.literals.twin(alloc)?,
        })
    }
}

impl Twin for Family {
    ghost use Rattle.access_paths.specs.{same_family};

    ghost exact = { same_family };

    fn twin(&self, alloc: Global) -> Result<Family, Memory> {
        Ok(Family {
            classes: self.classes.twin(alloc)?,
            cube: self.cube.twin(alloc)?,
        })
    }
}
