// Whether a shelf is one to start with.
ghost use Rattle.std.specs.Prelude.{◌≡◌, true, is_ok};
ghost use Rattle.shelf.specs.Examined.{any_below, holds_at, loaded_at, examined, Fresh};
ghost use Rattle.shelf.specs.Shelves.{meaning_of};

use crate::faults::ShelfFault;
use crate::shelf::Shelf;
use word::{Parity, Service};

/// Whether the service holds a word.
fn holds_at<S: Shelf>(shelf: &S, service: Service) -> bool
    ensures { result ≡ holds_at (meaning_of S.Shelf shelf.now) service.number }
{
    shelf.word(service, Parity::Even).is_some() || shelf.word(service, Parity::Odd).is_some()
}

/// Whether the service has a next other than 0.
fn loaded_at<S: Shelf>(shelf: &S, service: Service) -> bool
    ensures { result ≡ loaded_at (meaning_of S.Shelf shelf.now) service.number }
{
    shelf.next_load(service) != 0
}

/// Whether any service holds a word.
// Beside `loaded`, and no worker with a closure: the test is all that either says.
fn holds_word<S: Shelf>(shelf: &S) -> bool
    ensures { result ≡ any_below 32 (holds_at (meaning_of S.Shelf shelf.now)) }
{
    let services = Service::all();
    services.iter().any(|service| holds_at(shelf, *service))
}

/// Whether any service has a next other than 0.
fn loaded<S: Shelf>(shelf: &S) -> bool
    ensures { result ≡ any_below 32 (loaded_at (meaning_of S.Shelf shelf.now)) }
{
    let services = Service::all();
    services.iter().any(|service| loaded_at(shelf, *service))
}

/// Refuses a shelf that holds a word for any service, and then one on which any service has a next other than 0.
pub fn examine<S: Shelf>(shelf: &S) -> Result<(), ShelfFault>
    ensures answer { result ≡ examined (meaning_of S.Shelf shelf.now) }
    ensures fresh { is_ok result ≡ true → Fresh (meaning_of S.Shelf shelf.now) }
{
    if holds_word(shelf) {
        return Err(ShelfFault::HoldsWord);
    }
    if loaded(shelf) {
        return Err(ShelfFault::Loaded);
    }
    Ok(())
}
