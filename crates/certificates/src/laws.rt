//! What follows of texts of certificates. Each function does nothing: its contract is the law.
ghost use Rattle.certificates.specs.Laws.{HasOneCertificate, IsReadBack};
ghost use Rattle.certificates.specs.Examples.{WorkedTexts};

/// A text is of one certificate.
pub fn has_one_certificate()
    ensures { HasOneCertificate }
{}

/// What is written of a certificate is read as that certificate.
pub fn is_read_back()
    ensures { IsReadBack }
{}

/// Certificates and lines that were worked out by hand.
pub fn worked_texts()
    ensures { WorkedTexts }
{}
