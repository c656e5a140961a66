//! The laws of the words in which a first fault is told. The functions do nothing: their contracts are the laws.

ghost use Rattle.tsn_argue.specs.Laws.{FirstFaultsRefute, FirstReasonsRefute};

/// A plan and a certificate with a first fault show nothing, and have no other first fault.
pub fn first_faults_refute()
    ensures { FirstFaultsRefute }
{
    tsn_check::laws::first_faults_refute();
}

/// The same of an argument, where the fault is told with the numbers that show it.
pub fn first_reasons_refute()
    ensures { FirstReasonsRefute }
{}
