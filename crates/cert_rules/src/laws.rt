//! What an accepted certificate means.

ghost use Rattle.cert_rules.specs.Checking.{CertificatesAreSound};

/// Of a well sorted goal an accepted certificate makes it valid.
pub fn certificates_are_sound()
    ensures { CertificatesAreSound }
{}
