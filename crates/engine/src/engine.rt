// What an engine is. `calls` has what it does.
use crate::desk::Desk;
use cipher::Profile;

mod calls;

/// A scrambling engine over any cipher, tail rule and shelf.
#[derive(Drop)]
pub struct Engine<C, T, S> {
    profile: Profile<C, T>,
    desk: Desk<S>,
    tag: u16,
}
