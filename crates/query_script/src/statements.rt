// The statements that take one line, from the words of a line.
ghost use Rattle.std.specs.Prelude.{
  ◌≡◌,
  ◌≢◌,
  ◌≤◌,
  ◌↔◌,
  ℕ,
  List,
  [],
  ◌∷◌,
  All,
  Option,
  None,
  codes,
  IfOk,
  IfSome,
  IfNone,
  IsTrue,
  IsUtf8,
};
ghost use Rattle.kb_geometry.specs.declared.shape.Shape.{Shape};
ghost use Rattle.pattern_images.specs.declared.query.Query.{Query};
ghost use Rattle.dyer_signature.specs.declared.bytes.SigPattern.{SigPattern};
ghost use Rattle.dyer_signature.specs.Patterns.{IsSignaturePatternByte};
ghost use Rattle.info_filter.specs.declared.filter.Filter.{Filter};
ghost use Rattle.query_script.specs.declared.statement.Statement.{Statement};
ghost use Rattle.query_script.specs.declared.statement.Statement.TheVariants as statement;
ghost use Rattle.query_script.specs.declared.word.Word.{Word};
ghost use Rattle.query_script.specs.Conditions.{IsFilteredBody, IsNamedBody};
ghost use Rattle.query_script.specs.Statements.{
  AreMakeNumbers,
  AreOpeningNumbers,
  IsPath,
  IsSignaturePattern,
  IsStatement,
};
ghost use Rattle.query_script.specs.Words.{IsNumber, bare};

use crate::conditions::{filter_of, parted_at_where};
use crate::kept_words::kept_query_of;
use crate::number::number_up_to;
use crate::search_words::{MAX_MOVES, behind_name, first_bare, only_bare, query_of, shape_of};
use crate::statement::Statement;
use crate::word::Word;
use dyer_signature::SigPattern;
use info_filter::Filter;
use kb_geometry::{NoMemory, Shape, Text};
use pattern_images::Query;
use std::alloc::Global;

// The most games that a statement makes.
const MAX_MADE: u32 = 400_000;

// The greatest number with which the generator of made games begins.
const MAX_START: u32 = 2_147_483_647;

// The statement that the words spell, if they spell one that takes one line. The only error is
// `NoMemory`.
pub(crate) fn statement_of(alloc: Global, words: &[Word]) -> Result<Option<Statement>, NoMemory>
    ensures some { IfOk result (λ found. IfSome found (λ s. IsStatement words.now s)) }
    ensures none { IfOk result (λ found. IfNone found ((s : Statement) →
        ¬ IsStatement words.now s)) }
{
    if let Some(named) = named_statement(words) {
        return Ok(Some(named));
    }
    if let Some(numbered) = numbered_statement(words) {
        return Ok(Some(numbered));
    }
    if let Some(path) = import_of(alloc, words)? {
        return Ok(Some(Statement::Import { path }));
    }
    if let Some((query, filter)) = search_of(alloc, words)? {
        return Ok(Some(Statement::Search { query, filter }));
    }
    if let Some(query) = kept_of(alloc, words)? {
        return Ok(Some(Statement::Kept { query }));
    }
    if let Some(pattern) = signature_of(words) {
        return Ok(Some(Statement::Signature { pattern }));
    }
    if let Some(name) = retire_of(alloc, words)? {
        return Ok(Some(Statement::Retire { name }));
    }
    if let Some((name, query, filter)) = watch_of(alloc, words)? {
        return Ok(Some(Statement::Watch {
            name,
            query,
            filter,
        }));
    }
    if let Some(name) = watched_of(alloc, words)? {
        return Ok(Some(Statement::Watched { name }));
    }
    Ok(None)
}

// The statement that is one word, if the words are that one.
fn named_statement(words: &[Word]) -> Option<Statement>
    ensures some { IfSome result (λ s. IsStatement words.now s) }
    ensures no_wait { IfNone result (words.now ≢ bare (codes "wait") ∷ []) }
    ensures no_players { IfNone result (words.now ≢ bare (codes "players") ∷ []) }
    ensures no_doubles { IfNone result (words.now ≢ bare (codes "doubles") ∷ []) }
    ensures no_report { IfNone result (words.now ≢ bare (codes "report") ∷ []) }
{
    if is_name(words, b"wait") {
        return Some(Statement::Wait);
    }
    if is_name(words, b"players") {
        return Some(Statement::Players);
    }
    if is_name(words, b"doubles") {
        return Some(Statement::Doubles);
    }
    if is_name(words, b"report") {
        return Some(Statement::Report);
    }
    None
}

// The statement behind whose name numbers stand alone, if the words spell one.
fn numbered_statement(words: &[Word]) -> Option<Statement>
    ensures some { IfSome result (λ s. IsStatement words.now s) }
    ensures no_make { IfNone result ((games start : ℕ) →
        ¬ IsStatement words.now (statement.Make games start)) }
    ensures no_until { IfNone result ((number : ℕ) →
        ¬ IsStatement words.now (statement.Until number)) }
    ensures no_game { IfNone result ((number : ℕ) →
        ¬ IsStatement words.now (statement.Game number)) }
    ensures no_opening { IfNone result ((shape : Shape) (depth least : ℕ) →
        ¬ IsStatement words.now (statement.Opening shape depth least)) }
{
    if let Some((games, start)) = make_of(words) {
        return Some(Statement::Make { games, start });
    }
    if let Some(number) = until_of(words) {
        return Some(Statement::Until { number });
    }
    if let Some(number) = game_of(words) {
        return Some(Statement::Game { number });
    }
    if let Some((shape, depth, least)) = opening_of(words) {
        return Some(Statement::Opening {
            shape,
            depth,
            least,
        });
    }
    None
}

// The path of `import PATH`. The only error is `NoMemory`.
fn import_of(alloc: Global, words: &[Word]) -> Result<Option<Text>, NoMemory>
    ensures some { IfOk result
        (λ found. IfSome found (λ path. IsStatement words.now (statement.Import path))) }
    ensures none { IfOk result (λ found. IfNone found ((path : List ℕ) →
        ¬ IsStatement words.now (statement.Import path))) }
{
    let Some(word) = only_word_behind(words, b"import") else {
        return Ok(None);
    };
    path_of(alloc, word)
}

// The path that a word spells. The only error is `NoMemory`.
fn path_of(alloc: Global, word: &Word) -> Result<Option<Text>, NoMemory>
    ensures some { IfOk result (λ found. IfSome found (λ path. IsPath word.now path)) }
    ensures none { IfOk result (λ found. IfNone found ((path : List ℕ) → ¬ IsPath word.now path)) }
{
    let bytes = word.bytes();
    if bytes.is_empty() {
        return Ok(None);
    }
    text_of(alloc, bytes)
}

// The text that bytes in UTF-8 are. The only error is `NoMemory`.
fn text_of(alloc: Global, bytes: &[u8]) -> Result<Option<Text>, NoMemory>
    ensures some { IfOk result (λ found. IfSome found (λ text. (bytes.now ≡ text) × IsUtf8 text)) }
    ensures none { IfOk result (λ found. IfNone found (¬ IsUtf8 bytes.now)) }
{
    match std::str::from_utf8(bytes) {
        Ok(text) => Ok(Some(Text::new(String::from_str(alloc, text)?))),
        Err(_) => Ok(None),
    }
}

// How many games `make N START` makes, and with which number their generator begins.
fn make_of(words: &[Word]) -> Option<(u32, u32)>
    ensures some { IfSome result (λ r. IsStatement words.now (statement.Make r.0 r.1)) }
    ensures none { result ≡ None → (games start : ℕ) →
        ¬ IsStatement words.now (statement.Make games start) }
{
    let (games, start) = only_two_behind(words, b"make")?;
    make_numbers(games, start)
}

// How many games two words tell to make, and with which number their generator begins.
fn make_numbers(games: &Word, start: &Word) -> Option<(u32, u32)>
    ensures some { IfSome result (λ r. AreMakeNumbers games.now start.now r.0 r.1) }
    ensures none { result ≡ None → (n s : ℕ) → ¬ AreMakeNumbers games.now start.now n s }
{
    let games = number_from_one(games, MAX_MADE)?;
    let start = number_up_to(start, u64::from(MAX_START))?;
    Some((games, start as u32))
}

// The number from one to this one that a word names.
fn number_from_one(word: &Word, most: u32) -> Option<u32>
    ensures some { IfSome result (λ n. IsNumber word.now n × (1 ≤ n) × (n ≤ most)) }
    ensures none { result ≡ None → (n : ℕ) → 1 ≤ n → n ≤ most → ¬ IsNumber word.now n }
{
    let number = number_up_to(word, u64::from(most))?;
    if number == 0 {
        None
    } else {
        Some(number as u32)
    }
}

// The number of `until K`.
fn until_of(words: &[Word]) -> Option<u64>
    ensures some { IfSome result (λ number. IsStatement words.now (statement.Until number)) }
    ensures none { result ≡ None → (number : ℕ) → ¬ IsStatement words.now (statement.Until number) }
{
    let word = only_word_behind(words, b"until")?;
    number_up_to(word, u64::from(u32::MAX))
}

// The query and the filter of `search ..`. The only error is `NoMemory`.
fn search_of(alloc: Global, words: &[Word]) -> Result<Option<(Query, Filter)>, NoMemory>
    ensures some { IfOk result
        (λ found. IfSome found (λ r. IsStatement words.now (statement.Search r.0 r.1))) }
    ensures none { IfOk result (λ found. IfNone found ((query : Query) (filter : Filter) →
        ¬ IsStatement words.now (statement.Search query filter))) }
{
    let Some(rest) = behind_name(words, b"search") else {
        return Ok(None);
    };
    filtered_query(alloc, rest)
}

// The query and the filter that the words behind `search` spell, if they spell these. The only
// error is `NoMemory`.
fn filtered_query(alloc: Global, words: &[Word]) -> Result<Option<(Query, Filter)>, NoMemory>
    ensures some { IfOk result
        (λ found. IfSome found (λ r. IsFilteredBody words.now r.0 r.1)) }
    ensures none { IfOk result (λ found. IfNone found ((query : Query) (filter : Filter) →
        ¬ IsFilteredBody words.now query filter)) }
{
    let (body, asked) = parted_at_where(words);
    let Some(query) = query_of(alloc, body)? else {
        return Ok(None);
    };
    let Some(filter) = filter_of(alloc, asked)? else {
        return Ok(None);
    };
    Ok(Some((query, filter)))
}

// The query of `kept ..`. The only error is `NoMemory`.
fn kept_of(alloc: Global, words: &[Word]) -> Result<Option<Query>, NoMemory>
    ensures some { IfOk result
        (λ found. IfSome found (λ query. IsStatement words.now (statement.Kept query))) }
    ensures none { IfOk result (λ found. IfNone found ((query : Query) →
        ¬ IsStatement words.now (statement.Kept query))) }
{
    let Some(rest) = behind_name(words, b"kept") else {
        return Ok(None);
    };
    kept_query_of(alloc, rest)
}

// The pattern of `signature PATTERN`.
fn signature_of(words: &[Word]) -> Option<SigPattern>
    ensures some { IfSome result (λ pattern. IsStatement words.now (statement.Signature pattern)) }
    ensures none { IfNone result ((pattern : SigPattern) →
        ¬ IsStatement words.now (statement.Signature pattern)) }
{
    let rest = behind_name(words, b"signature")?;
    pattern_of(only_bare(rest)?)
}

// The signature pattern of these bytes, if they are one.
fn pattern_of(bytes: &[u8]) -> Option<SigPattern>
    ensures some { IfSome result (λ pattern. (bytes.now ≡ pattern.bytes)
        × IsSignaturePattern pattern.bytes) }
    ensures none { IfNone result (¬ IsSignaturePattern bytes.now) }
{
    if !are_pattern_bytes(bytes) {
        return None;
    }
    match <[u8; 12]>::try_from(bytes) {
        Ok(bytes) => Some(SigPattern { bytes }),
        Err(_) => None,
    }
}

// Whether each of the bytes may stand in a signature pattern.
fn are_pattern_bytes(bytes: &[u8]) -> bool
    ensures { IsTrue result ↔ All IsSignaturePatternByte bytes.now }
{
    bytes.iter().all(|byte| is_pattern_byte(*byte))
}

// Whether the byte may stand in a signature pattern: a letter, `?` or `*`.
fn is_pattern_byte(byte: u8) -> bool
    ensures { IsTrue result ↔ IsSignaturePatternByte byte }
{
    byte.is_ascii_alphabetic() || byte == b'?' || byte == b'*'
}

// The number of `game N`.
fn game_of(words: &[Word]) -> Option<u32>
    ensures some { IfSome result (λ number. IsStatement words.now (statement.Game number)) }
    ensures none { result ≡ None → (number : ℕ) → ¬ IsStatement words.now (statement.Game number) }
{
    let word = only_word_behind(words, b"game")?;
    let number = number_up_to(word, u64::from(u32::MAX))?;
    Some(number as u32)
}

// The board, the greatest move number and the least number of entries of `opening C R D M`.
fn opening_of(words: &[Word]) -> Option<(Shape, u32, u32)>
    ensures some { IfSome result (λ r. IsStatement words.now (statement.Opening r.0 r.1 r.2)) }
    ensures none { result ≡ None → (shape : Shape) (depth least : ℕ) →
        ¬ IsStatement words.now (statement.Opening shape depth least) }
{
    let (cols, rows, depth, least) = only_four_behind(words, b"opening")?;
    opening_numbers(cols, rows, depth, least)
}

// The board, the greatest move number and the least number of entries that four words tell.
fn opening_numbers(
    cols: &Word,
    rows: &Word,
    depth: &Word,
    least: &Word,
) -> Option<(Shape, u32, u32)>
    ensures some { IfSome result (λ r.
        AreOpeningNumbers cols.now rows.now depth.now least.now r.0 r.1 r.2) }
    ensures none { result ≡ None → (shape : Shape) (d m : ℕ) →
        ¬ AreOpeningNumbers cols.now rows.now depth.now least.now shape d m }
{
    let shape = shape_of(cols, rows)?;
    let depth = number_up_to(depth, u64::from(MAX_MOVES))?;
    let least = number_from_one(least, u32::MAX)?;
    Some((shape, depth as u32, least))
}

// The name of `retire NAME`. The only error is `NoMemory`.
fn retire_of(alloc: Global, words: &[Word]) -> Result<Option<Text>, NoMemory>
    ensures some { IfOk result
        (λ found. IfSome found (λ name. IsStatement words.now (statement.Retire name))) }
    ensures none { IfOk result (λ found. IfNone found ((name : List ℕ) →
        ¬ IsStatement words.now (statement.Retire name))) }
{
    let Some(rest) = behind_name(words, b"retire") else {
        return Ok(None);
    };
    let Some(name) = only_bare(rest) else {
        return Ok(None);
    };
    text_of(alloc, name)
}

// The name, the query and the filter of `watch NAME ..`. The only error is `NoMemory`.
fn watch_of(alloc: Global, words: &[Word]) -> Result<Option<(Text, Query, Filter)>, NoMemory>
    ensures some { IfOk result
        (λ found. IfSome found (λ r. IsStatement words.now (statement.Watch r.0 r.1 r.2))) }
    ensures none { IfOk result
        (λ found. IfNone found ((name : List ℕ) (query : Query) (filter : Filter) →
        ¬ IsStatement words.now (statement.Watch name query filter))) }
{
    let Some(rest) = behind_name(words, b"watch") else {
        return Ok(None);
    };
    named_query(alloc, rest)
}

// The name, the query and the filter that the words behind `watch` spell, if they spell these. The
// only error is `NoMemory`.
fn named_query(alloc: Global, words: &[Word]) -> Result<Option<(Text, Query, Filter)>, NoMemory>
    ensures some { IfOk result
        (λ found. IfSome found (λ r. IsNamedBody words.now r.0 r.1 r.2)) }
    ensures none { IfOk result
        (λ found. IfNone found ((name : List ℕ) (query : Query) (filter : Filter) →
        ¬ IsNamedBody words.now name query filter)) }
{
    let Some((name, body)) = first_bare(words) else {
        return Ok(None);
    };
    let Some(name) = text_of(alloc, name)? else {
        return Ok(None);
    };
    let Some((query, filter)) = filtered_query(alloc, body)? else {
        return Ok(None);
    };
    Ok(Some((name, query, filter)))
}

// The name of `watched NAME`. The only error is `NoMemory`.
fn watched_of(alloc: Global, words: &[Word]) -> Result<Option<Text>, NoMemory>
    ensures some { IfOk result
        (λ found. IfSome found (λ name. IsStatement words.now (statement.Watched name))) }
    ensures none { IfOk result (λ found. IfNone found ((name : List ℕ) →
        ¬ IsStatement words.now (statement.Watched name))) }
{
    let Some(rest) = behind_name(words, b"watched") else {
        return Ok(None);
    };
    let Some(name) = only_bare(rest) else {
        return Ok(None);
    };
    text_of(alloc, name)
}

// The only word behind this bare word, if the words are these two.
fn only_word_behind<'a>(words: &'a [Word], name: &[u8]) -> Option<&'a Word>
    ensures some { IfSome result (λ word. words.now ≡ bare name.now ∷ word.now ∷ []) }
    ensures none { result ≡ None → (word : Word) → words.now ≢ bare name.now ∷ word ∷ [] }
{
    let [first, word] = words else {
        return None;
    };
    if first.is_bare(name) {
        Some(word)
    } else {
        None
    }
}

// The only two words behind this bare word, if the words are these three.
fn only_two_behind<'a>(words: &'a [Word], name: &[u8]) -> Option<(&'a Word, &'a Word)>
    ensures some { IfSome result (λ r. words.now ≡ bare name.now ∷ r.0.now ∷ r.1.now ∷ []) }
    ensures none { result ≡ None → (w v : Word) → words.now ≢ bare name.now ∷ w ∷ v ∷ [] }
{
    let [first, second, third] = words else {
        return None;
    };
    if first.is_bare(name) {
        Some((second, third))
    } else {
        None
    }
}

// The only four words behind this bare word, if the words are these five.
fn only_four_behind<'a>(
    words: &'a [Word],
    name: &[u8],
) -> Option<(&'a Word, &'a Word, &'a Word, &'a Word)>
    ensures some { IfSome result (λ r. words.now
        ≡ bare name.now ∷ r.0.now ∷ r.1.now ∷ r.2.now ∷ r.3.now ∷ []) }
    ensures none { result ≡ None → (c r d m : Word) →
        words.now ≢ bare name.now ∷ c ∷ r ∷ d ∷ m ∷ [] }
{
    let [first, second, third, fourth, fifth] = words else {
        return None;
    };
    if first.is_bare(name) {
        Some((second, third, fourth, fifth))
    } else {
        None
    }
}

// Whether this bare word is the only one.
pub(crate) fn is_name(words: &[Word], name: &[u8]) -> bool
    ensures { IsTrue result ↔ (words.now ≡ bare name.now ∷ []) }
{
    match words {
        [word] => word.is_bare(name),
        _ => false,
    }
}
