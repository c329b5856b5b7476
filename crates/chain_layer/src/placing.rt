//! Couplings on their pairs of qubits, one after another.
ghost use Rattle.std.specs.Prelude.{◌≡◌, length};
ghost use Rattle.chain_layer.specs.Image.{placed};
ghost use Rattle.chain_layer.specs.Steps.{place_number, TakesUpTo};

use bits_model::{CouplerEntries, CouplerList, Entry};
use std::marker::Model;

/// Couplings, each on its pair of qubits, which contracts see as the list of those that are left.
#[derive(Drop)]
pub(crate) struct PlacedEntries<'a> {
    couplings: CouplerEntries<'a>,
    places: &'a [(u32, u32)],
}

impl<'a> Model for PlacedEntries<'a> {
    ghost use Rattle.std.specs.Prelude.{◌≡◌, List, length};
    ghost use Rattle.bits_model.specs.declared.output.Entry.{Entry};
    ghost use Rattle.chain_layer.specs.Image.{placed};

    ghost Value = { List Entry };

    ghost view = { λ a. placed a.couplings a.places.now };

    ghost invariant = { λ a. length a.couplings ≡ length a.places.now };
}

/// The number of a pair of qubits: pairs are ordered by their first qubits, and then by their second
/// ones.
#[inline(always)]
pub(crate) fn place_number(place: (u32, u32)) -> u64
    ensures { result ≡ place_number place }
{
    u64::from(place.0) * (1 << 32) + u64::from(place.1)
}

impl<'a> PlacedEntries<'a> {
    /// Each coupling on its pair.
    pub(crate) fn new(couplings: &'a CouplerList, places: &'a [(u32, u32)]) -> PlacedEntries<'a>
        requires { length places.now ≡ length couplings.now }
        ensures { result ≡ placed couplings.now places.now }
    {
        PlacedEntries {
            couplings: couplings.iter(),
            places,
        }
    }

    /// The next one, if its number is at most this one.
    #[inline(always)]
    pub(crate) fn take_up_to(&mut self, limit: u64) -> Option<Entry>
        ensures { TakesUpTo limit self.old result self.new }
    {
        match self.places {
            [] => None,
            [place, later @ ..] => {
                let place = *place;
                if place_number(place) > limit {
                    return None;
                }
                let coupling = self.couplings.next()?;
                self.places = later;
                Some(Entry {
                    first: place.0,
                    second: place.1,
                    weight: coupling.weight,
                })
            }
        }
    }
}
