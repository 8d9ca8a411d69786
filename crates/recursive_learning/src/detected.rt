//! What `close` and `refute` answer of a fault that some vector detects.
ghost use Rattle.recursive_learning.specs.Detected.{CloseStaysOpen, RefuteStaysOpen};

use refutation::detected::detected_faults_stay_open;

/// Of a fault that some assignment detects, closing and refuting at any depth answer `Open`: so neither has to be called
/// where a kept vector detects the fault and only a clash would matter.
pub fn stay_open()
    ensures close { CloseStaysOpen }
    ensures refute { RefuteStaysOpen }
{
    detected_faults_stay_open();
}
