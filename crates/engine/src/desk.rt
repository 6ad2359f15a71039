// What an engine knows besides its profile and its tag. `methods` has what is done with it.
ghost use Rattle.std.specs.Prelude.{◌≡◌, length};

use component::Components;
use word::Parity;

mod methods;

/// A service: shut, or open, with the parity that is picked for it, if one is.
// An Option<Option<Parity>> would not say which None is a shut service.
#[derive(Clone, Copy)]
pub enum Slot {
    Shut,
    Live(Option<Parity>),
}

/// The shelf, a slot for each of the 32 services, and the components.
#[derive(Drop)]
pub struct Desk<S> {
    pub(crate) shelf: S,
    pub(crate) slots: [Slot; 32],
    pub(crate) components: Components,
    ghost long: { length slots ≡ 32 },
}
