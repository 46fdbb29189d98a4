// Connections, by their two ends and the peer's address.
ghost use Rattle.std.specs.Prelude.{◌≡◌, ℕ, List};

use crate::sink::{BytesOut, Sink};
use crate::source::{BytesIn, Source};
use njs_text::Text;

/// A connection: what its two ends are, and the address of its peer.
pub trait Ends {
    /// What the peer sends.
    type In: Source + Drop + Send;

    /// What the peer is sent.
    type Out: Sink + Drop + Send;

    /// The end that gives what the peer sends.
    ghost source: { Self → Self.In };

    /// The end that takes what the peer is sent.
    ghost sink: { Self → Self.Out };

    /// The peer's address.
    ghost peer: { Self → List ℕ };

    /// Takes the connection apart into just its ends and the peer's address.
    fn parts(self) -> (Self::In, Self::Out, Text)
        ensures source { result.0 ≡ source self }
        ensures sink { result.1 ≡ sink self }
        ensures peer { result.2 ≡ peer self };
}

/// A connection in memory.
#[derive(Drop)]
pub struct ListConn {
    source: BytesIn,
    sink: BytesOut,
    peer: Text,
}

impl ListConn {
    /// The connection of these ends and this address.
    pub fn new(source: BytesIn, sink: BytesOut, peer: Text) -> ListConn
        ensures source { ⟦<ListConn as Ends>⟧.source result ≡ source }
        ensures sink { ⟦<ListConn as Ends>⟧.sink result ≡ sink }
        ensures peer { ⟦<ListConn as Ends>⟧.peer result ≡ peer }
    {
        ListConn { source, sink, peer }
    }
}

impl Ends for ListConn {
    type In = BytesIn;

    type Out = BytesOut;

    ghost source = { λ conn. conn.source };

    ghost sink = { λ conn. conn.sink };

    ghost peer = { λ conn. conn.peer };

    fn parts(self) -> (BytesIn, BytesOut, Text) {
        let ListConn { source, sink, peer } = self;
        (source, sink, peer)
    }
}
