//! How readers and makers of words belong together: each law is the contract of a function that does nothing.
ghost use Rattle.std.specs.Prelude.{◌≡◌, ℕ, ◌<◌, ◌≤◌, ◌↔◌, ◌^◌, Bool, IsTrue};
ghost use Rattle.bus_words.specs.declared.status.Flags.{Flags};
ghost use Rattle.bus_words.specs.Fields.{HasFields, command_bits, address_of, is_transmit, sub_of, field_of, status_bits, flags_in, is_clean};

/// Within the ranges of the fields the readers of a command word give back what it was made of.
pub fn a_command_has_its_fields()
    ensures { (address sub field : ℕ) (transmit : Bool) → address ≤ 31 → sub ≤ 31 → field ≤ 31 →
        HasFields (command_bits address transmit sub field) address transmit sub field }
{}

/// A command word is made of what its readers give.
pub fn a_command_is_its_fields()
    ensures { (bits : ℕ) → command_bits (address_of bits) (is_transmit bits) (sub_of bits) (field_of bits) ≡ bits }
{}

/// The readers of a status word give back what it was made of, and its bits without a flag are 0.
pub fn a_status_has_its_flags()
    ensures word { (address : ℕ) (flags : Flags) → address ≤ 31 → status_bits address flags < 2 ^ 16 }
    ensures address { (address : ℕ) (flags : Flags) → address_of (status_bits address flags) ≡ address }
    ensures flags { (address : ℕ) (flags : Flags) → flags_in (status_bits address flags) ≡ flags }
    ensures clean { (address : ℕ) (flags : Flags) → IsTrue (is_clean (status_bits address flags)) }
{}

/// A status word is made of what its readers give exactly where its bits without a flag are 0.
pub fn a_clean_status_is_its_flags()
    ensures { (bits : ℕ) → (status_bits (address_of bits) (flags_in bits) ≡ bits) ↔ IsTrue (is_clean bits) }
{}
