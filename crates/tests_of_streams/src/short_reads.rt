use memory_network::MemConns;
use rpc_record::{ConnFault, Conns};

/// Connections in memory whose reads take no more than so many bytes, and none of which takes bytes before a cut and
/// behind it. They count how many of them are closed.
#[derive(Drop)]
pub(crate) struct ShortReads {
    pub(crate) conns: MemConns,
    pub(crate) most: usize,
    /// How many bytes stand before the cut; 0 where there is none.
    pub(crate) cut: usize,
    pub(crate) closed: u64,
}

impl Conns for ShortReads {
    ghost use Rattle.std.specs.Prelude.{false};
    ghost use Rattle.std.proofs.lemmas.Bool.{false≢true};

    // Where `most` is 0, a read takes nothing before the end.
    ghost tells = { false };

    ghost is_open = { λ short. ⟦<MemConns as Conns>⟧.is_open short.conns };

    ghost seen = { λ short. ⟦<MemConns as Conns>⟧.seen short.conns };

    ghost told_open = { λ _ told. absurd (false≢true told) };

    fn listen(&mut self, port: u16) -> Result<(), ConnFault> {
        self.conns.listen(port)
    }

    fn accept(&mut self) -> Result<u64, ConnFault> {
        self.conns.accept()
    }

    fn read(&mut self, buf: &mut [u8]) -> Result<usize, ConnFault> {
        let most = self.most.min(buf.len());
        let before_cut = if self.cut == 0 {
            most
        } else {
            self.cut.min(most)
        };
        let count = self.conns.read(&mut buf[..before_cut])?;
        self.cut = self.cut.saturating_sub(count);
        Ok(count)
    }

    fn write(&mut self, bytes: &[u8]) -> Result<(), ConnFault> {
        self.conns.write(bytes)
    }

    fn close(&mut self) {
        self.closed = self.closed.saturating_add(1);
        self.conns.close();
    }
}
