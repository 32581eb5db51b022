// What the reading of addresses means.

ghost use Rattle.std.specs.Prelude.{◌≡◌, ℕ, List, Some};
ghost use Rattle.da_nets.specs.declared.address.Ip.{Ip};
ghost use Rattle.da_nets.specs.Addresses.{address};
ghost use Rattle.da_nets.specs.Spellings.{Spells};

/// A text is read as an address exactly where it spells it: four numbers, or groups with at most one run left out.
pub fn addresses_are_read_from_their_spellings()
    ensures spelled { (text : List ℕ) (ip : Ip) → address text ≡ Some ip → Spells text ip }
    ensures read { (text : List ℕ) (ip : Ip) → Spells text ip → address text ≡ Some ip }
{}
