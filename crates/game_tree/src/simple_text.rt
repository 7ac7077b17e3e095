// SimpleText (SGF FF[4], property value types): how the values of the information are read.
ghost use Rattle.std.specs.Prelude.{
  ◌≡◌,
  ◌≢◌,
  ◌≤◌,
  ◌<◌,
  ◌⊎◌,
  ◌++◌,
  ℕ,
  List,
  ◌∷◌,
  length,
  Option,
  Some,
  None,
  IfOk,
  IfSome,
};
ghost use Rattle.std.specs.Option.{option_to_list};
ghost use Rattle.sgf_reader.specs.Bytes.{CR, LF, backslash};
ghost use Rattle.game_tree.specs.SimpleText.{BreaksLine, IsReadAs, IsSimpleText};
ghost use Rattle.game_tree.specs.StoredInfo.{HasGrownBy};

use kb_geometry::NoMemory;

// Appends a value, read as SimpleText. The only error is `NoMemory`.
pub(crate) fn append_simple_text(out: &mut Vec<u8>, value: &[u8]) -> Result<(), NoMemory>
    ensures { IfOk result
        (λ _. HasGrownBy (IsSimpleText value.now) out.old.items out.new.items) }
{
    let mut rest = value;
    while !rest.is_empty() {
        let (read, others) = next_byte(rest);
        if let Some(b) = read {
            out.push(b)?;
        }
        rest = others;
    }
    Ok(())
}

// What the first bytes of a text are read as, if they are read as anything, and what stands behind
// them.
fn next_byte(text: &[u8]) -> (Option<u8>, &[u8])
    requires { 1 ≤ length text.now }
    ensures read { (more : List ℕ) → IsSimpleText result.1.now more →
        IsSimpleText text.now (option_to_list result.0 ++ more) }
    ensures shorter { length result.1.now < length text.now }
{
    match text {
        [b'\\', hidden @ ..] => hidden_byte(hidden),
        _ => shown_byte(text),
    }
}

// What the first bytes behind a backslash are read as, and what stands behind them.
fn hidden_byte(hidden: &[u8]) -> (Option<u8>, &[u8])
    ensures read { (more : List ℕ) → IsSimpleText result.1.now more →
        IsSimpleText (backslash ∷ hidden.now) (option_to_list result.0 ++ more) }
    ensures shorter { length result.1.now ≤ length hidden.now }
{
    if let Some(rest) = behind_break(hidden) {
        return (None, rest);
    }
    match hidden {
        [b, rest @ ..] => (Some(read_as(*b)), rest),
        [] => (None, hidden),
    }
}

// What the first bytes of a text without a backslash are read as, and what stands behind them.
fn shown_byte(text: &[u8]) -> (Option<u8>, &[u8])
    requires some { 1 ≤ length text.now }
    requires shown { (rest : List ℕ) → text.now ≢ backslash ∷ rest }
    ensures read { (more : List ℕ) → IsSimpleText result.1.now more →
        IsSimpleText text.now (option_to_list result.0 ++ more) }
    ensures shorter { length result.1.now < length text.now }
{
    if let Some(rest) = behind_break(text) {
        return (Some(b' '), rest);
    }
    match text {
        [b, rest @ ..] => (Some(read_as(*b)), rest),
        [] => (None, text),
    }
}

// How a byte that begins no line break is read.
fn read_as(b: u8) -> u8
    requires feed { b ≢ LF }
    requires return_ { b ≢ CR }
    ensures { IsReadAs b result }
{
    if b <= b' ' { b' ' } else { b }
}

// What stands behind a line break at the beginning of a text.
fn behind_break(text: &[u8]) -> Option<&[u8]>
    ensures some { IfSome result (λ rest. BreaksLine text.now rest.now) }
    ensures shorter { IfSome result (λ rest. length rest.now < length text.now) }
    ensures none { result ≡ None → (b : ℕ) (rest : List ℕ) → text.now ≡ b ∷ rest →
        (b ≢ LF) × (b ≢ CR) }
{
    let [b, rest @ ..] = text else {
        return None;
    };
    match b {
        b'\r' => Some(behind_partner(rest, b'\n')),
        b'\n' => Some(behind_partner(rest, b'\r')),
        _ => None,
    }
}

// A text without this byte at its beginning, where it stands there.
fn behind_partner(text: &[u8], partner: u8) -> &[u8]
    ensures { (text.now ≡ partner ∷ result.now)
        ⊎ ((result.now ≡ text.now) × ((more : List ℕ) → text.now ≢ partner ∷ more)) }
{
    if let [b, more @ ..] = text {
        if *b == partner {
            return more;
        }
    }
    text
}
