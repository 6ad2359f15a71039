ghost use Rattle.std.specs.Prelude.{◌≡◌, length};

mod chain;
mod chaining;

pub use chaining::ScheduleLength;

/// A cipher, a tail rule and an initial vector, of which the first bytes are used, as many as a block has.
#[derive(Drop)]
pub struct Profile<C, T> {
    pub cipher: C,
    pub tail: T,
    pub iv: [u8; 16],
    ghost long: { length iv ≡ 16 },
}
