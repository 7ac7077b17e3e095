// Laws. Each stands as a contract of a function that does nothing.
ghost use Rattle.run_audit.specs.Laws.{
  AGuidedOutputIsLawful,
  ALawfulOutputGuidesItself,
  ARecordHasOneGuidedOutput,
  ARecordHasOneVerdict,
  AVerdictIsExact,
  EachRecordHasAGuidedOutput,
  EachRecordHasAVerdict,
};

/// A record has a guided output for the statements of a script, and one only.
pub fn a_record_has_one_guided_output()
    ensures some { EachRecordHasAGuidedOutput }
    ensures one { ARecordHasOneGuidedOutput }
{}

/// The guided output of a record is lawful, by the course that the record shows.
pub fn a_guided_output_is_lawful()
    ensures { AGuidedOutputIsLawful }
{}

/// A lawful output is its own guided output, where no file's name and no box's name has a line feed.
pub fn a_lawful_output_guides_itself()
    ensures { ALawfulOutputGuidesItself }
{}

/// A record has a verdict, and one only, where no file's name and no box's name has a line feed: it is told
/// lawful exactly where it is a lawful output, and too long exactly where it is.
pub fn a_record_has_one_verdict()
    ensures some { EachRecordHasAVerdict }
    ensures one { ARecordHasOneVerdict }
    ensures exact { AVerdictIsExact }
{}
