ghost use Rattle.std.specs.Prelude.{◌≡◌, ◌≤◌, ◌++◌, ◌⊎◌, [], Some, length, take, OnOk, OnErr};
ghost use Rattle.network.specs.Connections.{accepted, unread, with_failed_read, with_failed_write, with_taken};
ghost use Rattle.network.specs.Connections.{with_written};
ghost use Rattle.memory_network.specs.KeptConnection.{arrival_in, connection_in};

use std::alloc::AllocError;

/// A connection in memory, from its arrival on.
#[derive(Debug, Drop)]
pub struct KeptConnection {
    /// When it comes, in seconds since 1970.
    moment: u64,
    /// What its other side sends.
    bytes: Vec<u8>,
    /// How many of these bytes were taken.
    taken: usize,
    written: Vec<u8>,
    read_failed: bool,
    write_failed: bool,
}

impl KeptConnection {
    /// A connection that comes at a moment, and on which these bytes are sent.
    pub fn new(moment: u64, bytes: Vec<u8>) -> Self
        ensures { arrival_in result ≡ record { moment = moment; bytes = bytes.items } }
    {
        let written = Vec::new(*bytes.allocator());
        KeptConnection {
            moment,
            bytes,
            taken: 0,
            written,
            read_failed: false,
            write_failed: false,
        }
    }

    /// Begins it: nothing was taken or written, and nothing has failed. Answers its moment.
    pub fn begin(&mut self) -> u64
        ensures moment { result ≡ (arrival_in self.old).moment }
        ensures begun { connection_in self.new ≡ accepted (arrival_in self.old) }
    {
        self.taken = 0;
        self.written.clear();
        self.read_failed = false;
        self.write_failed = false;
        self.moment
    }

    /// What was written on it.
    pub fn written(&self) -> &[u8]
        ensures { result.now ≡ (connection_in self.now).written }
    {
        &self.written
    }

    /// The bytes that were not taken yet.
    fn unread(&self) -> &[u8]
        ensures { result.now ≡ unread (Some (connection_in self.now)) }
    {
        self.bytes.get(self.taken..).unwrap_or(&[])
    }

    /// Takes bytes into `buf`, as many as it holds or are left, and answers how many.
    pub fn read(&mut self, buf: &mut [u8]) -> usize
        ensures fits { result ≤ length buf.new }
        ensures taken { connection_in self.new ≡ with_taken result (connection_in self.old) }
        ensures bytes { unread (Some (connection_in self.old))
            ≡ take result buf.new ++ unread (Some (connection_in self.new)) }
        ensures end { result ≡ 0 → (length buf.old ≡ 0) ⊎ (unread (Some (connection_in self.old)) ≡ []) }
    {
        let left = self.unread();
        let count = buf.len().min(left.len());
        buf[..count].copy_from_slice(&left[..count]);
        self.taken += count;
        count
    }

    /// Notes that a read failed, which takes nothing.
    pub fn fail_read(&mut self)
        ensures { connection_in self.new ≡ with_failed_read (connection_in self.old) }
    {
        self.read_failed = true;
    }

    /// Writes all the bytes.
    ///
    /// # Errors
    ///
    /// There is not enough memory. Nothing was written, and it is noted that a write failed.
    pub fn write(&mut self, bytes: &[u8]) -> Result<(), AllocError>
        ensures ok { OnOk result (connection_in self.new ≡ with_written bytes.now (connection_in self.old)) }
        ensures err { OnErr result (connection_in self.new ≡ with_failed_write [] (connection_in self.old)) }
    {
        if self.written.extend_from_slice(bytes).is_err() {
            self.fail_write();
            return Err(AllocError);
        }
        Ok(())
    }

    /// Notes that a write failed, which wrote nothing.
    pub fn fail_write(&mut self)
        ensures { connection_in self.new ≡ with_failed_write [] (connection_in self.old) }
    {
        self.write_failed = true;
    }
}
