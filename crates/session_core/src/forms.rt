// The canonical forms of the signatures of games.
ghost use Rattle.std.specs.Prelude.{IfOk};
ghost use Rattle.session_core.specs.Listing.{AreFormsOf};

use dyer_signature::Signature;
use kb_geometry::NoMemory;
use segment_store::FinishedGame;
use std::alloc::Global;

// The canonical forms of the signatures of games, in their order. Each is kept with its game, so it is
// only copied, and threads would spare nothing. The only error is `NoMemory`.
pub(crate) fn canonical_forms(
    alloc: Global,
    games: &[&FinishedGame],
) -> Result<Vec<Signature>, NoMemory>
    ensures { IfOk result (λ forms. AreFormsOf games.now forms.items) }
{
    let mut forms = Vec::with_capacity(alloc, games.len())?;
    for game in games {
        forms.push(*game.canonical())?;
    }
    Ok(forms)
}
