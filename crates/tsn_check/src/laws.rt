//! The laws of what is judged: the words in which a first fault is told, and the limits of files. Each function does nothing: its
//! contract is the law.

ghost use Rattle.tsn_check.specs.Laws.{FirstFaultsRefute, FirstReasonsRefute};
ghost use Rattle.tsn_check.specs.Limits.{RightPlansFit, CertifiedTreesFit};

/// A plan and a certificate with a first fault show nothing, and have no other first fault.
pub fn first_faults_refute()
    ensures { FirstFaultsRefute }
{}

/// A plan and a tree with a first reason show nothing, and have no other first reason: none of its numbers is made up.
pub fn first_reasons_refute()
    ensures { FirstReasonsRefute }
{}

/// No number of a right plan is above the limits of a file.
pub fn right_plans_fit()
    ensures { RightPlansFit }
{}

/// No number of a tree that shows something of a plan is above the limits of a file, where its nodes have a form there, and there
/// are at most 4,294,967,295.
pub fn certified_trees_fit()
    ensures { CertifiedTreesFit }
{}
