// Laws on what the definitions say together.
ghost use Rattle.std.specs.Prelude.{◌≡◌, ℕ, List, Some, length, map};
ghost use Rattle.std.specs.Char.{to_ascii_lowercase};
ghost use Rattle.base64.specs.GeneralPurpose.{IsBytes};
ghost use Rattle.da_schemes.specs.Made.{IsMade, made};
ghost use Rattle.da_schemes.specs.Scheme.{scheme_name, scheme_named};
ghost use Rattle.da_schemes.specs.declared.scheme.Scheme.{Scheme};

/// A scheme's name in any case is read as that scheme.
pub fn a_name_is_read_in_any_case()
    ensures { (scheme : Scheme) (name : List ℕ) → map to_ascii_lowercase name ≡ map to_ascii_lowercase (scheme_name scheme) → scheme_named name ≡ Some scheme }
{}

/// A text that `make` writes is read as a password of its scheme, whatever the default scheme, and the password matches.
pub fn a_made_password_is_read_and_matches()
    ensures { (default scheme : Scheme) (plain salt : List ℕ) → length salt ≡ 16 → IsBytes salt → IsMade default scheme plain (made scheme plain salt) }
{}
