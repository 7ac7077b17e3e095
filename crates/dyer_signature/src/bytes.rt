// Signatures and signature patterns as they are kept: 12 bytes each.

/// The signature of a game, after Dyer: the points of its moves 20, 40, 60, 31, 51 and 71, in this
/// order, as two letters each, first the column; and `??` for a move that is missing or a pass.
///
/// The letters are those of SGF FF[4]: `a` to `z` for 0 to 25, `A` to `Z` for 26 to 51. Signatures
/// are ordered by their bytes.
#[derive(Clone, Copy, Debug, PartialEq, Eq, PartialOrd, Ord, Hash)]
pub struct Signature {
    pub bytes: [u8; 12],
}

/// A pattern of signatures: 12 bytes, each a letter or `?`, which stand for themselves, or `*`,
/// which stands for any byte. A byte of another kind agrees with no byte of a signature.
#[derive(Clone, Copy, Debug, PartialEq, Eq, Hash)]
pub struct SigPattern {
    pub bytes: [u8; 12],
}
