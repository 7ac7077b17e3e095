// What a record shows of the course of its run, found in one pass over it.
ghost use Rattle.std.specs.Prelude.{
  ◌≡◌,
  ◌++◌,
  ◌<◌,
  ◌^◌,
  ℕ,
  All,
  Bool,
  Contains,
  IfOk,
  IfSome,
  None,
  OnOk,
  Option,
  false,
  length,
  map,
  slice_index_or,
  true,
};
ghost use Rattle.run_audit.specs.Courses.{
  AreAscending,
  AreNumbered,
  HasNamesSorted,
  IsNoneAt,
  SeesLine,
  ShowsImport,
  import_lines,
  name_told,
  nothing_seen,
  seen_after,
  seen_of,
  unread_in,
};
ghost use Rattle.run_audit.specs.Shown.{begins_with_digit, lines_in};
ghost use Rattle.run_audit.specs.declared.course.ShownImport.{ShownImport};

use crate::numbers::split_number;
use kb_geometry::NoMemory;
use query_script::{Placed, Statement};
use std::alloc::Global;

// What a record shows of the import at a line.
#[derive(Debug, Drop)]
pub(crate) struct ShownImport<'a> {
    // The line of the import in the script.
    pub line: u32,
    // Whether the record shows the import as unlisted.
    pub unlisted: bool,
    // Whether a line that tells how many files it has was seen.
    pub told: bool,
    // The names of the files that the record shows as unread; once all are found, in order of their
    // bytes.
    pub unread: Vec<&'a [u8]>,
}

impl<'a> ShownImport<'a> {
    ghost use Rattle.std.specs.Prelude.{List, ℕ};
    ghost use Rattle.run_audit.specs.Shown.{is_shown_unread};

    // Nothing of the import at a line.
    pub(crate) fn nothing(alloc: Global, line: u32) -> ShownImport<'a>
        ensures line { result.line ≡ line }
        ensures nothing { seen_of result false ≡ nothing_seen }
        ensures numbered { result.line < 2 ^ 64 }
    {
        ShownImport {
            line,
            unlisted: false,
            told: false,
            unread: Vec::new(alloc),
        }
    }

    // Whether the record shows a file of this name as unread.
    pub(crate) fn is_unread(&self, name: &str) -> bool
        ensures { (recorded : List ℕ) → ShowsImport recorded self.now →
            result ≡ is_shown_unread recorded self.now.line name.now }
    {
        self.unread.binary_search(&name.as_bytes()).is_ok()
    }
}

// What a record shows of the imports of files among these statements, in their order.
pub(crate) fn shown_course<'a>(
    alloc: Global,
    recorded: &'a [u8],
    placed: &[Placed],
) -> Result<Vec<ShownImport<'a>>, NoMemory>
    ensures lines { IfOk result (λ shown.
        map (λ (s : ShownImport). s.line) shown.items ≡ import_lines placed.now) }
    ensures each { IfOk result (λ shown. AreAscending shown.items →
        All (ShowsImport recorded.now) shown.items) }
{
    let mut shown = imports_of(alloc, placed)?;
    see_lines(&mut shown, recorded)?;
    sort_names(&mut shown);
    Ok(shown)
}

// Sorts the names that are kept of each import by their bytes.
fn sort_names(shown: &mut [ShownImport<'_>])
    ensures counted { length shown.new ≡ length shown.old }
    ensures sorted { (at : ℕ) (d : ShownImport) → at < length shown.old →
        HasNamesSorted (slice_index_or shown.old at d) (slice_index_or shown.new at d) }
{
    for import in shown.iter_mut() {
        import.unread.sort_unstable();
    }
}

// What is kept of the imports of files among these statements before a line of the record was seen.
fn imports_of<'a>(alloc: Global, placed: &[Placed]) -> Result<Vec<ShownImport<'a>>, NoMemory>
    ensures lines { IfOk result (λ shown.
        map (λ (s : ShownImport). s.line) shown.items ≡ import_lines placed.now) }
    ensures nothing { IfOk result (λ shown.
        All (λ (s : ShownImport). seen_of s false ≡ nothing_seen) shown.items) }
    ensures numbered { IfOk result (λ shown. AreNumbered shown.items) }
{
    let mut shown = Vec::new(alloc);
    for p in placed {
        if let Statement::Import { .. } = &p.statement {
            shown.push(ShownImport::nothing(alloc, p.line))?;
        }
    }
    Ok(shown)
}

// Notes what the lines of a record show.
fn see_lines<'a>(shown: &mut [ShownImport<'a>], recorded: &'a [u8]) -> Result<(), NoMemory>
    ensures counted { length shown.new ≡ length shown.old }
    ensures lines { (at : ℕ) (d : ShownImport) → at < length shown.old →
        (slice_index_or shown.new at d).line ≡ (slice_index_or shown.old at d).line }
    ensures seen { OnOk result (AreAscending shown.old → AreNumbered shown.old → (at : ℕ)
        (d : ShownImport) → at < length shown.old → (telling : Bool)
        × (seen_of (slice_index_or shown.new at d) telling
        ≡ seen_after (slice_index_or shown.old at d).line
        (seen_of (slice_index_or shown.old at d) false) (lines_in recorded.now))) }
{
    let mut telling = None;
    for line in recorded.split(|byte| *byte == b'\n') {
        telling = see_line(shown, telling, line)?;
    }
    Ok(())
}

// Notes what a line of the record shows. The lines before it tell the files of the import at this place,
// if they tell the files of one. Hands back of which one the lines behind it do.
fn see_line<'a>(
    shown: &mut [ShownImport<'a>],
    telling: Option<usize>,
    line: &'a [u8],
) -> Result<Option<usize>, NoMemory>
    requires { IfSome telling (λ at. at < length shown.old) }
    ensures within { IfOk result (λ next. IfSome next (λ at. at < length shown.old)) }
    ensures counted { length shown.new ≡ length shown.old }
    ensures lines { (at : ℕ) (d : ShownImport) → at < length shown.old →
        (slice_index_or shown.new at d).line ≡ (slice_index_or shown.old at d).line }
    ensures seen { IfOk result (λ next. AreAscending shown.old → AreNumbered shown.old →
        SeesLine line.now shown.old shown.new telling next) }
{
    if begins_with_digit(line) {
        return Ok(see_report(shown, line));
    }
    if let Some(at) = telling {
        see_file(&mut shown[at], line)?;
    }
    Ok(telling)
}

// Whether a line begins with a digit.
fn begins_with_digit(line: &[u8]) -> bool
    ensures { result ≡ begins_with_digit line.now }
{
    match line {
        [] => false,
        [first, ..] => first.is_ascii_digit(),
    }
}

// Notes what a line shows that begins with no digit and tells a file of an import: perhaps that it is
// unread.
fn see_file<'a>(import: &mut ShownImport<'a>, line: &'a [u8]) -> Result<(), NoMemory>
    ensures line { import.new.line ≡ import.old.line }
    ensures seen { OnOk result ((telling : Bool) → seen_of import.new telling
        ≡ record (seen_of import.old telling) {
          unread = unread_in import.old ++ name_told line.now;
        }) }
{
    if let Some(name) = line.strip_prefix(b"unread ") {
        import.unread.push(name)?;
    }
    Ok(())
}

// Notes what a line shows that begins with a digit: perhaps that an import is unlisted. Answers the place
// of the import whose files the lines behind it tell, if they do.
fn see_report(shown: &mut [ShownImport<'_>], line: &[u8]) -> Option<usize>
    ensures within { IfSome result (λ at. at < length shown.old) }
    ensures counted { length shown.new ≡ length shown.old }
    ensures lines { (at : ℕ) (d : ShownImport) → at < length shown.old →
        (slice_index_or shown.new at d).line ≡ (slice_index_or shown.old at d).line }
    ensures seen { AreAscending shown.old → AreNumbered shown.old →
        begins_with_digit line.now ≡ true → (telling : Option ℕ) →
        SeesLine line.now shown.old shown.new telling result }
{
    let (number, told) = split_number(line)?;
    let at = place_of(shown, number)?;
    if told == b" imported unlisted".as_slice() {
        shown[at].unlisted = true;
        return None;
    }
    if shown[at].told || !told.starts_with(b" imported files ") {
        return None;
    }
    shown[at].told = true;
    Some(at)
}

// What is shown of the import at a line, if one stands there. The imports stand in order of their lines.
pub(crate) fn shown_at<'b, 'a>(
    shown: &'b [ShownImport<'a>],
    line: u32,
) -> Option<&'b ShownImport<'a>>
    ensures there { IfSome result (λ s. (s.now.line ≡ line)
        × Contains shown.now s.now) }
    ensures none { result ≡ None → AreAscending shown.now → IsNoneAt line shown.now }
{
    let at = place_of(shown, u64::from(line))?;
    Some(&shown[at])
}

// The place of the import at a line, if one stands there. The imports stand in order of their lines.
fn place_of(shown: &[ShownImport<'_>], line: u64) -> Option<usize>
    ensures there { IfSome result (λ at. (at < length shown.now)
        × ((d : ShownImport) → (slice_index_or shown.now at d).line ≡ line)) }
    ensures none { result ≡ None → AreAscending shown.now → IsNoneAt line shown.now }
{
    let mut low = 0;
    let mut high = shown.len();
    while low < high {
        let middle = low + (high - low) / 2;
        if u64::from(shown[middle].line) < line {
            low = middle + 1;
        } else {
            high = middle;
        }
    }
    if low < shown.len() && u64::from(shown[low].line) == line {
        return Some(low);
    }
    None
}
