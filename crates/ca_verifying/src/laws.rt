//! How long a certificate may be.
ghost use Rattle.std.specs.Prelude.{◌≡◌};
ghost use Rattle.ca_verifying.specs.declared.certificates.TheConstants.{MAX_CERT};

/// A certificate has at most 256 MiB.
pub fn certificate_limit()
    ensures { MAX_CERT ≡ 268435456 }
{}
