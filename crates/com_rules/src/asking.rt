//! What the entries of packets ask of the books.

ghost use Rattle.std.specs.Prelude.{◌≡◌, length};
ghost use Rattle.com_refs_books.specs.Changes.{packet};

use com_refs_books::Packet;
use com_view::References;

/// Who holds references, as the entries of actions ask for it.
pub trait Found: References + Drop {
    /// How many packets were made.
    fn packets(&self) -> u32
        ensures { result ≡ length (Self.books self.now).packets };

    /// The row of a packet, by its number from 1; that of an ended one where there is no such packet.
    fn packet(&self, number: u32) -> Packet
        ensures { result ≡ packet (Self.books self.now) number };

    /// How many public references an apartment's proxy of an object has of an interface, and 0 without proxy.
    fn public(&self, apartment: u32, object: u32, iface: u16) -> u64
        ensures { result ≡ (Self.books self.now).proxy apartment object iface };
}
