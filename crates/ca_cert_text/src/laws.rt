//! Laws of texts of certificates, each the contract of a function that does nothing.

ghost use Rattle.ca_cert_text.specs.Laws.{TextIsRead, FaultyLineIsOne};

/// The text of a certificate reads as just this certificate.
pub fn text_is_read()
    ensures { TextIsRead }
{}

/// A text has at most one first faulty line.
pub fn faulty_line_is_one()
    ensures { FaultyLineIsOne }
{}
