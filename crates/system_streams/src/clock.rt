ghost use Rattle.std.specs.Prelude.{◌≡◌, ◌/◌, IfErr, IfOk, Err, Ok};
ghost use Rattle.std.specs.Time.{system_time_nanos};

use std::io;
use std::io::ErrorKind;
use std::time::{Clock, SystemTime};

/// The moment, in seconds since 1970.
///
/// # Errors
///
/// The clock failed.
pub fn moment(clock: &impl Clock) -> io::Result<u64> {
    seconds_told(SystemTime::now(clock))
}

/// The whole seconds since 1970 at the time that a clock told. A clock that failed tells none.
fn seconds_told(told: io::Result<SystemTime>) -> io::Result<u64>
    ensures told { IfOk told (λ time. result ≡ Ok (system_time_nanos time / 1_000_000_000)) }
    ensures failed { IfErr told (λ error. result ≡ Err error) }
{
    match told {
        Ok(time) => match time.duration_since(SystemTime::UNIX_EPOCH) {
            Ok(since) => Ok(since.as_secs()),
            Err(_) => Err(io::Error::from(ErrorKind::InvalidData)),
        },
        Err(error) => Err(error),
    }
}
