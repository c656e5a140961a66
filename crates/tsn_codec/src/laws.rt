//! The laws of files. Each function does nothing: its contract is the law.
ghost use Rattle.tsn_cert.specs.Laws.{PlanTextIsRead, CertTextIsRead};
ghost use Rattle.tsn_cert.specs.ArgumentLaws.{CertificateTextIsRead};

/// The text of a plan within the limits of a file is read again as that plan.
pub fn plan_text_is_read()
    ensures { PlanTextIsRead }
{}

/// The text of a tree within the limits of a file, whose nodes have a form there, is read again as that tree.
pub fn cert_text_is_read()
    ensures { CertTextIsRead }
{}

/// The text of a certificate within the limits of a file, which has a form there, is read again as that certificate.
pub fn certificate_text_is_read()
    ensures { CertificateTextIsRead }
{}
