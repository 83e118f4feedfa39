//! What follows of texts of certificates of version 3. Each function does nothing: its contract is the law.
ghost use Rattle.priced_cert.specs.Laws.{HasOnePricedCertificate, IsPricedReadBack, VersionsAreApart};

/// A text is of one certificate.
pub fn has_one_priced_certificate()
    ensures { HasOnePricedCertificate }
{}

/// What is written of a certificate is read as that certificate.
pub fn is_priced_read_back()
    ensures { IsPricedReadBack }
{}

/// The first line says which grammar a text is of.
pub fn versions_are_apart()
    ensures { VersionsAreApart }
{}
