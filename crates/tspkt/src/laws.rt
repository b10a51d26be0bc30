//! What holds of all copies, and of faults that are compared.

ghost use Rattle.std.specs.Prelude.{◌≡◌, ◌↔◌, true, ℕ, List};
ghost use Rattle.tspkt.specs.declared.stamped.Stamped.{Stamped as StampedPacket};
ghost use Rattle.tspkt.specs.declared.item.Item.{Item as ToldItem};
ghost use Rattle.tspkt.specs.declared.malformed.Malformed.{Malformed as PacketFault};
ghost use Rattle.tspkt.specs.declared.feed_fault.FeedFault.{FeedFault as PieceFault};
ghost use Rattle.tspkt.specs.declared.packet_size.PacketSize.{PacketSize as Size};

use crate::feed_fault::FeedFault;
use crate::item::Item;
use crate::malformed::Malformed;
use crate::packet::Packet;
use crate::packet_size::PacketSize;
use crate::stamped::Stamped;

/// A clone of a packet, of a packet with its time, of an item, of a fault or of a size is that very value.
pub fn clones_are_equal()
    ensures packet { (x y : List ℕ) → ⟦<Packet as Clone>⟧.is_clone x y → y ≡ x }
    ensures stamped { (x y : StampedPacket) → ⟦<Stamped as Clone>⟧.is_clone x y → y ≡ x }
    ensures item { (x y : ToldItem) → ⟦<Item as Clone>⟧.is_clone x y → y ≡ x }
    ensures malformed { (x y : PacketFault) → ⟦<Malformed as Clone>⟧.is_clone x y → y ≡ x }
    ensures fault { (x y : PieceFault) → ⟦<FeedFault as Clone>⟧.is_clone x y → y ≡ x }
    ensures size { (x y : Size) → ⟦<PacketSize as Clone>⟧.is_clone x y → y ≡ x }
{}

/// And it is always made: none of them asks for memory.
pub fn clones_are_made()
    ensures packet { (x : List ℕ) → ⟦<Packet as Clone>⟧.is_infallible x }
    ensures stamped { (x : StampedPacket) → ⟦<Stamped as Clone>⟧.is_infallible x }
    ensures item { (x : ToldItem) → ⟦<Item as Clone>⟧.is_infallible x }
    ensures malformed { (x : PacketFault) → ⟦<Malformed as Clone>⟧.is_infallible x }
    ensures fault { (x : PieceFault) → ⟦<FeedFault as Clone>⟧.is_infallible x }
    ensures size { (x : Size) → ⟦<PacketSize as Clone>⟧.is_infallible x }
{}

/// Faults compare as equal exactly where they are the same.
pub fn equal_faults_are_the_same()
    ensures malformed { (x y : PacketFault) → (⟦<Malformed as PartialEq>⟧.eq x y ≡ true) ↔ (x ≡ y) }
    ensures fault { (x y : PieceFault) → (⟦<FeedFault as PartialEq>⟧.eq x y ≡ true) ↔ (x ≡ y) }
{}

/// Sizes compare as equal exactly where they are the same.
pub fn equal_sizes_are_the_same()
    ensures { (x y : Size) → (⟦<PacketSize as PartialEq>⟧.eq x y ≡ true) ↔ (x ≡ y) }
{}
