// The words of a count of kept games.
ghost use Rattle.std.specs.Prelude.{IfNone, IfOk, IfSome};
ghost use Rattle.pattern_images.specs.declared.query.Query.{Query};
ghost use Rattle.query_script.specs.Search.{IsKeptBody};

use crate::search_words::{MAX_MOVES, at_of, board_of, flag, pattern_of};
use crate::word::Word;
use kb_geometry::NoMemory;
use pattern_images::Query;
use std::alloc::Global;

// The query that the words behind `kept` spell, if they spell one: the options are those of a
// search but `main` and `moves`. The only error is `NoMemory`.
pub(crate) fn kept_query_of(alloc: Global, words: &[Word]) -> Result<Option<Query>, NoMemory>
    ensures some { IfOk result (λ found. IfSome found (λ query. IsKeptBody words.now query)) }
    ensures none { IfOk result (λ found. IfNone found ((query : Query) →
        ¬ IsKeptBody words.now query)) }
{
    let (same, rest) = flag(words, b"same");
    let (fixed, rest) = flag(rest, b"fixed");
    let Some((board, rest)) = board_of(rest) else {
        return Ok(None);
    };
    let Some((at, rest)) = at_of(rest) else {
        return Ok(None);
    };
    let Some(pattern) = pattern_of(alloc, rest)? else {
        return Ok(None);
    };
    Ok(Some(Query {
        pattern,
        same,
        fixed,
        main: false,
        board,
        from_move: 0,
        to_move: MAX_MOVES,
        at,
    }))
}
