//! How long a file of patterns may be.
ghost use Rattle.std.specs.Prelude.{◌≡◌};
ghost use Rattle.ca_patterns.specs.declared.patterns.TheConstants.{MAX_STIL};

/// A file of patterns has at most 256 MiB.
pub fn stil_limit()
    ensures { MAX_STIL ≡ 268435456 }
{}
