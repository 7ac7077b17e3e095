// Splits a line into its words.
ghost use Rattle.std.specs.Prelude.{◌≡◌, ◌≢◌, ◌++◌, ◌∷◌, ◌<◌, ◌≤◌, ◌↔◌, ◌⊎◌};
ghost use Rattle.std.specs.Prelude.{
  ℕ,
  List,
  [],
  All,
  length,
  Option,
  Some,
  None,
  IfOk,
  IfSome,
  IfNone,
  IsTrue,
};
ghost use Rattle.query_script.specs.declared.word.Word.{Word};
ghost use Rattle.query_script.specs.Bytes.{backslash, quote};
ghost use Rattle.query_script.specs.Words.{
  AreBlanks,
  AreWords,
  IsBareByte,
  IsBlank,
  IsWordEnd,
  escaped,
  escaped_byte,
};
ghost use Rattle.query_script.specs.Reading.{
  BeginsWithNoBareByte,
  BeginsWithNoBlank,
  BeginsWithWord,
};

use crate::word::Word;
use game_tree::Bytes;
use kb_geometry::NoMemory;
use std::alloc::Global;

// The words of a line, if it is made of words. The only error is `NoMemory`.
pub(crate) fn words_of(alloc: Global, line: &[u8]) -> Result<Option<Vec<Word>>, NoMemory>
    ensures some { IfOk result (λ found. IfSome found (λ words. AreWords line.now words.items)) }
    ensures none { IfOk result (λ found. IfNone found ((words : List Word) →
        ¬ AreWords line.now words)) }
{
    let mut words = Vec::new(alloc);
    let mut rest = without_blanks(line);
    while !rest.is_empty() {
        match first_word(alloc, rest) {
            Ok(Some((word, behind))) => {
                words.push(word)?;
                rest = without_blanks(behind);
            }
            Ok(None) => return Ok(None),
            Err(error) => return Err(error),
        }
    }
    Ok(Some(words))
}

// A text without the spaces and tabs before it.
pub(crate) fn without_blanks(text: &[u8]) -> &[u8]
    ensures split { (blanks : List ℕ) × (text.now ≡ blanks ++ result.now) × AreBlanks blanks }
    ensures first { BeginsWithNoBlank result.now }
{
    let mut rest = text;
    while let [byte, others @ ..] = rest {
        if !is_blank(*byte) {
            return rest;
        }
        rest = others;
    }
    rest
}

// Whether the byte is a space or a tab.
fn is_blank(byte: u8) -> bool
    ensures { IsTrue result ↔ IsBlank byte }
{
    byte == b' ' || byte == b'\t'
}

// The word with which a text begins, and what stands behind it, if it begins with one. The only
// error is `NoMemory`.
fn first_word(alloc: Global, text: &[u8]) -> Result<Option<(Word, &[u8])>, NoMemory>
    requires some { 1 ≤ length text.now }
    requires first { BeginsWithNoBlank text.now }
    ensures some { IfOk result (λ found. IfSome found (λ r. BeginsWithWord text.now r.0 r.1.now)) }
    ensures shorter { IfOk result (λ found. IfSome found (λ r. length r.1.now < length text.now)) }
    ensures none { IfOk result (λ found. IfNone found ((words : List Word) →
        ¬ AreWords text.now words)) }
{
    match behind_quote(text) {
        Some(inner) => quoted_word(alloc, inner),
        None => bare_word(alloc, text),
    }
}

// The quoted word that begins before these bytes, and what stands behind it. The only error is
// `NoMemory`.
fn quoted_word(alloc: Global, inner: &[u8]) -> Result<Option<(Word, &[u8])>, NoMemory>
    ensures some { IfOk result (λ found. IfSome found (λ r.
        BeginsWithWord (quote ∷ inner.now) r.0 r.1.now)) }
    ensures shorter { IfOk result (λ found. IfSome found (λ r. length r.1.now < length inner.now)) }
    ensures none { IfOk result (λ found. IfNone found ((words : List Word) →
        ¬ AreWords (quote ∷ inner.now) words)) }
{
    let Some((bytes, behind)) = unescaped(alloc, inner)? else {
        return Ok(None);
    };
    if !is_word_end(behind) {
        return Ok(None);
    }
    Ok(Some((Word::Quoted(Bytes::new(bytes)), behind)))
}

// The bytes before a quote that ends a word, without the `\` before a `"` or a `\`, and what stands
// behind the quote. The only error is `NoMemory`.
fn unescaped(alloc: Global, text: &[u8]) -> Result<Option<(Vec<u8>, &[u8])>, NoMemory>
    ensures some { IfOk result (λ found. IfSome found (λ r.
        text.now ≡ escaped r.0.items ++ quote ∷ r.1.now)) }
    ensures none { IfOk result (λ found. IfNone found ((bytes behind : List ℕ) →
        text.now ≢ escaped bytes ++ quote ∷ behind)) }
{
    let mut bytes = Vec::new(alloc);
    let mut rest = text;
    while let Some((byte, behind)) = quoted_byte(rest) {
        bytes.push(byte)?;
        rest = behind;
    }
    let Some(behind) = behind_quote(rest) else {
        return Ok(None);
    };
    Ok(Some((bytes, behind)))
}

// What stands behind the quote with which a text begins, if it begins with one.
fn behind_quote(text: &[u8]) -> Option<&[u8]>
    ensures some { IfSome result (λ behind. text.now ≡ quote ∷ behind.now) }
    ensures none { result ≡ None → (behind : List ℕ) → text.now ≢ quote ∷ behind }
{
    match text {
        [b'"', behind @ ..] => Some(behind),
        _ => None,
    }
}

// The first byte of a text between quotes, and what stands behind it, if the text begins with one.
fn quoted_byte(text: &[u8]) -> Option<(u8, &[u8])>
    ensures some { IfSome result (λ r. text.now ≡ escaped_byte r.0 ++ r.1.now) }
    ensures shorter { IfSome result (λ r. length r.1.now < length text.now) }
    ensures none { result ≡ None → (byte : ℕ) (rest : List ℕ) →
        text.now ≢ escaped_byte byte ++ rest }
{
    match text {
        [b'\\', byte, rest @ ..] if is_special(*byte) => Some((*byte, rest)),
        [byte, rest @ ..] if !is_special(*byte) => Some((*byte, rest)),
        _ => None,
    }
}

// Whether a `\` stands before this byte between quotes.
fn is_special(byte: u8) -> bool
    ensures { IsTrue result ↔ ((byte ≡ quote) ⊎ (byte ≡ backslash)) }
{
    byte == b'"' || byte == b'\\'
}

// The bare word with which a text begins, and what stands behind it. The only error is `NoMemory`.
fn bare_word(alloc: Global, text: &[u8]) -> Result<Option<(Word, &[u8])>, NoMemory>
    requires some { 1 ≤ length text.now }
    requires first { BeginsWithNoBlank text.now }
    requires bare { (rest : List ℕ) → text.now ≢ quote ∷ rest }
    ensures some { IfOk result (λ found. IfSome found (λ r. BeginsWithWord text.now r.0 r.1.now)) }
    ensures shorter { IfOk result (λ found. IfSome found (λ r. length r.1.now < length text.now)) }
    ensures none { IfOk result (λ found. IfNone found ((words : List Word) →
        ¬ AreWords text.now words)) }
{
    let (bytes, behind) = split_bare(text);
    if !is_word_end(behind) {
        return Ok(None);
    }
    let bytes = bytes.to_vec(alloc)?;
    Ok(Some((Word::Bare(Bytes::new(bytes)), behind)))
}

// The bytes of a bare word with which a text begins, as many as there are, and what stands behind
// them.
fn split_bare(text: &[u8]) -> (&[u8], &[u8])
    ensures split { text.now ≡ result.0.now ++ result.1.now }
    ensures bare { All IsBareByte result.0.now }
    ensures ends { BeginsWithNoBareByte result.1.now }
{
    match text.iter().position(|byte| !is_bare_byte(*byte)) {
        Some(end) => text.split_at(end),
        None => (text, &[]),
    }
}

// Whether the byte may stand in a bare word.
fn is_bare_byte(byte: u8) -> bool
    ensures { IsTrue result ↔ IsBareByte byte }
{
    byte != b' ' && byte != b'\t' && byte != b'"'
}

// Whether a word may end before this text.
fn is_word_end(text: &[u8]) -> bool
    ensures { IsTrue result ↔ IsWordEnd text.now }
{
    match text {
        [byte, ..] => is_blank(*byte),
        [] => true,
    }
}
