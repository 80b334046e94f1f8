//! What a printed text tells. Each law is a function that does nothing, whose contract says it.

ghost use Rattle.run_report.specs.Law.{DeletionsHaveRows, OneReportOneRun};

/// A printed text has one list of replies, where the numbers of the opening and of the script fit their types: of two lists that
/// are allowed for the script, with the same number of lanes or with another, only one has this text. Those of an opening and a
/// script that rows say fit (`cluster_open::one_text_one_run`).
#[tactic(auto, using(crate::proofs::OneRun::one_report_one_run))]
pub fn one_report_one_run()
    ensures { OneReportOneRun }
{}

/// In a cluster that can be opened no deletion is refused for rows: a group without a key needs no more of them than before.
/// So of deletions only those that are accepted, spent or absent are printed.
#[tactic(auto, using(crate::proofs::DeletionRows::deletions_have_rows))]
pub fn deletions_have_rows()
    ensures { DeletionsHaveRows }
{}
