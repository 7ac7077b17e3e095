// A box that tallies hits.
ghost use Rattle.std.specs.Prelude.{◌≡◌, ◌∷◌, ◌++◌, [], length, OnErr, OnOk};
ghost use Rattle.hit_collectors.specs.Reports.{report_line};
ghost use Rattle.hit_collectors.specs.Tallies.{BoxTally, number_count, with_hits};

use crate::Kind;
use kb_geometry::NoMemory;
use pattern_images::Hit;

/// A box that tallies hits by its kind, under a name of its own.
pub trait Collector: Drop {
    /// What it tells: its name, its kind and its numbers.
    ghost tally: { Self → BoxTally };

    /// Its name.
    fn name(&self) -> &str
        ensures { result.now ≡ (tally self.now).name };

    /// What it counts. It has as many numbers as this kind has.
    fn kind(&self) -> Kind
        ensures kind { result ≡ (tally self.now).kind }
        ensures sized { length (tally self.now).numbers ≡ number_count (tally self.now).kind };

    /// Adds a hit to its numbers. After `NoMemory` it tells what it told before.
    fn take(&mut self, hit: &Hit) -> Result<(), NoMemory>
        ensures ok { OnOk result (tally self.new ≡ with_hits (hit.now ∷ []) (tally self.old)) }
        ensures refused { OnErr result (tally self.new ≡ tally self.old) };

    /// Appends its report line: `collector NAME WORD` and its numbers, each behind a space. The
    /// word is that of its kind. After `NoMemory` `out` holds the bytes that it held before.
    fn report(&self, out: &mut Vec<u8>) -> Result<(), NoMemory>
        ensures ok { OnOk result (out.new.items ≡ out.old.items ++ report_line (tally self.now)) }
        ensures refused { OnErr result (out.new.items ≡ out.old.items) };
}

/// A box shows what is in it.
impl Collector for Box<dyn Collector> {
    ghost tally = { λ b. (Collector-box b).tally b.value };

    fn name(&self) -> &str {
        (**self).name()
    }

    fn kind(&self) -> Kind {
        (**self).kind()
    }

    fn take(&mut self, hit: &Hit) -> Result<(), NoMemory> {
        (**self).take(hit)
    }

    fn report(&self, out: &mut Vec<u8>) -> Result<(), NoMemory> {
        (**self).report(out)
    }
}
