//! The fault for an expected value that is wrong.
ghost use Rattle.std.specs.Prelude.{◌≡◌};
ghost use Rattle.ca_patterns.specs.Patterns.{fault_of_value, IsSmall};

use ca_fault::Fault;
use ca_grade::GradeFault;

/// The fault for an expected value that is wrong, or for no memory.
pub fn value_fault(fault: GradeFault) -> Fault
    requires { IsSmall fault }
    ensures { result ≡ fault_of_value fault }
{
    match fault {
        GradeFault::Expected(wrong) => Fault::Expected {
            pair: wrong.pair as u32,
            output: wrong.output,
        },
        GradeFault::NoMemory => Fault::NoMemory,
    }
}
