// What the table is. `calls` has what it does.
ghost use Rattle.component.specs.Rows.{Few, Apart};

use crate::component::Component;
use arrayvec::ArrayVec;

mod calls;

/// The components of an engine, at most 64, in the order in which they were added. No two have the same PID.
#[derive(Drop)]
pub struct Components {
    rows: ArrayVec<Component, 64>,
    ghost few: { Few rows.items },
    ghost apart: { Apart rows.items },
}
