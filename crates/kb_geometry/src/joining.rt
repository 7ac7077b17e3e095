// What is made in pieces, in one list.
ghost use Rattle.std.specs.Prelude.{IfOk, OnOk};
ghost use Rattle.kb_geometry.specs.Pieces.{ArePiecesJoined, IsPieceAdded};

use crate::memory::NoMemory;
use std::alloc::Global;

/// What all pieces have, in one list, where there was memory for each piece. The only error is
/// `NoMemory`.
pub fn joined<T: Drop>(
    alloc: Global,
    pieces: Vec<Result<Vec<T>, NoMemory>>,
) -> Result<Vec<T>, NoMemory>
    ensures { IfOk result (λ all. ArePiecesJoined pieces.items all.items) }
{
    let mut all = Vec::new(alloc);
    for piece in pieces {
        add_piece(piece, &mut all)?;
    }
    Ok(all)
}

// Moves what a piece has behind others, unless memory ran out at the piece.
fn add_piece<T: Drop>(piece: Result<Vec<T>, NoMemory>, all: &mut Vec<T>) -> Result<(), NoMemory>
    ensures { OnOk result (IsPieceAdded piece all.old.items all.new.items) }
{
    match piece {
        Ok(mut more) => {
            all.append(&mut more)?;
            Ok(())
        }
        Err(error) => Err(error),
    }
}
