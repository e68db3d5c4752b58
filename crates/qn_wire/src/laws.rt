//! The laws that a well formed packet that was put is read back, and in which kind a named view is announced.
ghost use Rattle.std.specs.Prelude.{◌≡◌, ◌<◌, ℕ, List, Some, IsTrue, slice_index, true};
ghost use Rattle.qn_base.specs.Candidates.{is_barred, is_named};
ghost use Rattle.qn_base.specs.declared.ids.Rank.{Rank};
ghost use Rattle.qn_base.specs.declared.ids.View.{View};
ghost use Rattle.qn_model.specs.declared.packets.Packet.{Packet};
ghost use Rattle.qn_model.specs.declared.packets.Packet.TheVariants as packet;
ghost use Rattle.qn_wire.specs.Packets.{has_name, packet_bytes, is_well_formed};
ghost use Rattle.qn_wire.specs.Reading.{packet_of};

/// Law: a well formed packet that was put is read back.
pub fn law_read_back()
    ensures { (packet : Packet) → IsTrue (is_well_formed packet)
        → packet_of (packet_bytes packet) ≡ Some packet }
{}

/// Law: a view that names a rank, or bars all, has a name; and an announcement of such a view is put, and read, in kind 11 alone. So
/// a program that does not know that kind never has one.
pub fn law_named_views_have_their_kind()
    ensures ranks { (view : View) (rank : ℕ)
        → rank < 32
        → is_named view rank ≡ true
        → has_name view ≡ true }
    ensures barred { (view : View) → is_barred view ≡ true → has_name view ≡ true }
    ensures put { (from : Rank) (view : View)
        → has_name view ≡ true
        → slice_index (packet_bytes (packet.Announce from view)) 2 ≡ 11 }
    ensures read { (bytes : List ℕ) (from : Rank) (view : View)
        → packet_of bytes ≡ Some (packet.Announce from view)
        → has_name view ≡ true
        → slice_index bytes 2 ≡ 11 }
{}
