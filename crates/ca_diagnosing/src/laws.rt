//! How long a log may be.
ghost use Rattle.std.specs.Prelude.{◌≡◌};
ghost use Rattle.ca_diagnosing.specs.declared.logs.TheConstants.{MAX_LOG};

/// A log has at most 16 MiB.
pub fn log_limit()
    ensures { MAX_LOG ≡ 16777216 }
{}
