//! Copies of embedded forms.
//!
//! No run of the program comes here: it gives its embedded form up.
ghost use Rattle.std.specs.Prelude.{◌≡◌, IfOk};

use base::{Items, NoMemory};
use embedding_check::Embedded;
use ising_form::Ising;
use quad_form::NumberList;
use std::alloc::Global;

/// The same form in memory of its own.
fn copied_form(alloc: Global, form: &Ising) -> Result<Ising, NoMemory>
    ensures { IfOk result (λ f. f ≡ form.now) }
{
    Ok(Ising {
        constant: form.constant,
        fields: NumberList::new(form.fields.as_slice().to_vec(alloc)?),
        couplings: form.couplings.copied(alloc)?,
    })
}

/// The same embedded form in memory of its own.
pub fn copied(alloc: Global, source: &Embedded) -> Result<Embedded, NoMemory>
    ensures { IfOk result (λ e. e ≡ source.now) }
{
    let ising = copied_form(alloc, source.ising())?;
    let chains = source.chains().copied(alloc)?;
    let parents = source.parents().copied(alloc)?;
    let places = Items::new(source.places().as_slice().to_vec(alloc)?);
    Ok(Embedded::of(ising, chains, source.qubits(), parents, places))
}
