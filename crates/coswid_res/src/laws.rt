//! Laws of tables and of verdicts. The functions do nothing: their contracts are the laws.

ghost use Rattle.coswid_res.specs.Reading.{LineByLine};
ghost use Rattle.coswid_res.specs.Verify.{ToldVerdicts};

/// Where the pairs of a map stand in key order, its first fault is that of a missing key, and then
/// that of the pairs as they stand.
pub fn faults_are_told_line_by_line()
    ensures same { LineByLine }
{}

/// Where the contents of all files are exposed, each file of a payload has one verdict.
pub fn verdicts_are_of_what_is_told()
    ensures told { ToldVerdicts }
{}
