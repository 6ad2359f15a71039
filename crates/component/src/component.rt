ghost use Rattle.std.specs.Prelude.{◌≡◌};

use word::Service;

/// A PID with the service that it is joined to.
#[derive(Clone, Copy)]
pub struct Component {
    pub pid: u16,
    pub service: Service,
}

// `ArrayVec` fills its unused places with it.
impl Default for Component {
    ghost is_default = { λ c. (c.pid ≡ 0) × (c.service.number ≡ 0) };

    fn default() -> Component {
        Component {
            pid: 0,
            service: Service::new(0).unwrap(),
        }
    }
}
