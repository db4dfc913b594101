//! Laws of the exchange: functions that do nothing, whose contracts are the laws.
ghost use Rattle.std.specs.Prelude.{◌≡◌, ℕ, ◌^◌, ◌<◌};
ghost use Rattle.com_refs_books.specs.declared.keeps.Packet.{Packet};
ghost use Rattle.com_model.specs.declared.scenario.Scenario.{Scenario};
ghost use Rattle.com_model.specs.Sight.{Sight};
ghost use Rattle.com_model.specs.Deeds.{packet_fields};
ghost use Rattle.com_exchange.specs.Received.{SentIsReceived, packet_in_fields, reference_in_fields};

/// What was sent is received: the bytes of a request are read as its causality, its values and the packets'
/// numbers.
pub fn sent_is_received()
    ensures { SentIsReceived }
{}

/// The fields of a packet name its number and its reference.
pub fn fields_name_packets()
    ensures number { (s : Scenario) (v : Sight) (k : Packet) (p : ℕ) → p < 2 ^ 64
        → packet_in_fields (packet_fields s v k p) ≡ p }
    ensures reference { (s : Scenario) (v : Sight) (k : Packet) (p : ℕ)
        → reference_in_fields (packet_fields s v k p) ≡ record { object = k.object; iface = k.iface } }
{}
