// A shelf above any other that spaces the words of each service.
ghost use Rattle.std.specs.Prelude.{◌≡◌, ◌≤◌, length};
ghost use Rattle.shelf.specs.Paces.{full_until};

mod methods;

pub use methods::pacing_follows_its_rule;

/// When a service takes a word next, and how many it took in the span of its latest word.
/// A span is 300 seconds, numbered by its moments divided by 300.
#[derive(Clone, Copy)]
struct Pace {
    next: u64,
    span: u32,
    taken: u8,
    ghost low: { next ≤ 4000000300 },
    ghost few: { taken ≤ 10 },
    ghost full: { full_until span taken ≤ next },
}

/// The shelf below, and the pace of each of the 32 services.
#[derive(Drop)]
pub struct Pacing<S> {
    below: S,
    paces: [Pace; 32],
    ghost size: { length paces ≡ 32 },
}
