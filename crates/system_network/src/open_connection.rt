ghost use Rattle.std.specs.Prelude.{◌≤◌, length, IfOk};

use std::io;
use std::io::{ErrorKind, Read, Write};
use std::net::OpenStream;
use std::time::{Clock, Duration, Instant};

/// For how long a call of the system waits while nothing comes or goes, in seconds.
const SILENCE: u64 = 30;

/// After how many seconds a connection has ended, whatever comes and goes.
const LIFETIME: u64 = 300;

/// A connection that was accepted, with the moment at which it has ended.
#[derive(Drop)]
pub struct OpenConnection<S> {
    stream: S,
    ends: Instant,
}

impl<S: Read + Write + OpenStream + Drop> OpenConnection<S> {
    /// The connection of a stream, which begins now. Small writes go out at once.
    pub fn new(clock: &impl Clock, stream: S) -> io::Result<Self> {
        let lifetime = Duration::from_secs(LIFETIME);
        let Some(ends) = Instant::now(clock)?.checked_add(lifetime) else {
            return Err(io::Error::from(ErrorKind::InvalidData));
        };
        stream.set_nodelay(true)?;
        let connection = OpenConnection { stream, ends };
        connection.wait_at_most(Duration::from_secs(SILENCE))?;
        Ok(connection)
    }

    /// Has each read and each write wait for so long at most, which is not 0.
    fn wait_at_most(&self, time: Duration) -> io::Result<()> {
        self.stream.set_read_timeout(Some(time))?;
        self.stream.set_write_timeout(Some(time))
    }

    /// Has the next read or write wait no longer than the connection lasts. It fails where the connection has ended.
    fn end_in_time(&self, clock: &impl Clock) -> io::Result<()> {
        let left = self.ends.saturating_duration_since(Instant::now(clock)?);
        if left.is_zero() {
            return Err(io::Error::from(ErrorKind::TimedOut));
        }
        if left < Duration::from_secs(SILENCE) {
            self.wait_at_most(left)?;
        }
        Ok(())
    }

    /// Takes the bytes that come next, as many as come at once, and answers how many; 0 at the end. Each turn but the
    /// last one is an interruption.
    pub fn read(&mut self, clock: &impl Clock, buf: &mut [u8]) -> io::Result<usize>
        ensures { IfOk result (λ count. count ≤ length buf.new) }
    {
        for _ in 0..u64::MAX {
            self.end_in_time(clock)?;
            match self.stream.read(buf) {
                Ok(count) => return Ok(count),
                Err(error) if error.kind() == ErrorKind::Interrupted => {}
                Err(error) => return Err(as_silence(error)),
            }
        }
        Err(io::Error::from(ErrorKind::TimedOut))
    }

    /// Writes all the bytes, in as many calls of the system as it takes. Each turn but the last one writes something or
    /// is an interruption, so the bound on the turns is never met.
    pub fn write(&mut self, clock: &impl Clock, bytes: &[u8]) -> io::Result<()> {
        let mut rest = bytes;
        for _ in 0..u64::MAX {
            if rest.is_empty() {
                return Ok(());
            }
            self.end_in_time(clock)?;
            match self.stream.write(rest) {
                Ok(0) => return Err(io::Error::from(ErrorKind::WriteZero)),
                Ok(count) => rest = &rest[count..],
                Err(error) if error.kind() == ErrorKind::Interrupted => {}
                Err(error) => return Err(as_silence(error)),
            }
        }
        Err(io::Error::from(ErrorKind::TimedOut))
    }
}

/// An error of a read or a write, where one that waited for too long is said to have.
fn as_silence(error: io::Error) -> io::Error {
    if error.kind() == ErrorKind::WouldBlock {
        io::Error::from(ErrorKind::TimedOut)
    } else {
        error
    }
}
