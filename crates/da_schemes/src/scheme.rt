// The schemes by name, and the braces before a stored password.
ghost use Rattle.std.specs.Prelude.{◌≡◌, Some, None, MatchOption};
ghost use Rattle.da_schemes.specs.Scheme.{braced, encoding_named, kind_of, label_named, same_name, scheme_name, scheme_named};
ghost use Rattle.da_schemes.specs.Stored.{digest_size, own_encoding};

use da_tabline::{split_at_byte, strip_front};

/// A password scheme, by which a password is stored.
#[derive(Clone, Copy, PartialEq, Eq, Debug)]
pub enum Scheme {
    Plain,
    Clear,
    Cleartext,
    PlainMd5,
    LdapMd5,
    Sha,
    Sha256,
    Sha512,
    Smd5,
    Ssha,
    Ssha256,
    Ssha512,
    ScramSha256,
}

const SCHEMES: [Scheme; 13] = [
    Scheme::Plain,
    Scheme::Clear,
    Scheme::Cleartext,
    Scheme::PlainMd5,
    Scheme::LdapMd5,
    Scheme::Sha,
    Scheme::Sha256,
    Scheme::Sha512,
    Scheme::Smd5,
    Scheme::Ssha,
    Scheme::Ssha256,
    Scheme::Ssha512,
    Scheme::ScramSha256,
];

/// What a scheme stores.
#[derive(Clone, Copy)]
pub(crate) enum Kind {
    /// The password itself.
    Verbatim,
    /// The password's digest.
    Hashed,
    /// The digest of the password and a salt, and the salt.
    Salted,
    /// The keys of SCRAM-SHA-256.
    Scram,
}

/// How the bytes of a stored password are written.
#[derive(Clone, Copy)]
pub(crate) enum Encoding {
    Base64,
    Hex,
}

/// What the braces before a stored password say.
#[derive(Clone, Copy)]
pub(crate) struct Label {
    pub(crate) scheme: Scheme,
    pub(crate) encoding: Option<Encoding>,
}

// Whether two names are equal without regard to ASCII case.
fn same_name(name: &[u8], other: &[u8]) -> bool
    ensures { result ≡ same_name name.now other.now }
{
    name.eq_ignore_ascii_case(other)
}

impl Scheme {
    /// The scheme of this name, without regard to ASCII case. `None` exactly where the name is no scheme's.
    pub fn read(name: &[u8]) -> Option<Scheme>
        ensures { result ≡ scheme_named name.now }
    {
        SCHEMES
            .iter()
            .copied()
            .find(|scheme| same_name(name, scheme.name()))
    }

    /// The scheme's name.
    pub(crate) fn name(self) -> &'static [u8]
        ensures { result.now ≡ scheme_name self }
    {
        match self {
            Scheme::Plain => b"PLAIN",
            Scheme::Clear => b"CLEAR",
            Scheme::Cleartext => b"CLEARTEXT",
            Scheme::PlainMd5 => b"PLAIN-MD5",
            Scheme::LdapMd5 => b"LDAP-MD5",
            Scheme::Sha => b"SHA",
            Scheme::Sha256 => b"SHA256",
            Scheme::Sha512 => b"SHA512",
            Scheme::Smd5 => b"SMD5",
            Scheme::Ssha => b"SSHA",
            Scheme::Ssha256 => b"SSHA256",
            Scheme::Ssha512 => b"SSHA512",
            Scheme::ScramSha256 => b"SCRAM-SHA-256",
        }
    }

    /// What the scheme stores.
    pub(crate) fn kind(self) -> Kind
        ensures { result ≡ kind_of self }
    {
        match self {
            Scheme::Plain | Scheme::Clear | Scheme::Cleartext => Kind::Verbatim,
            Scheme::PlainMd5 | Scheme::LdapMd5 => Kind::Hashed,
            Scheme::Sha | Scheme::Sha256 | Scheme::Sha512 => Kind::Hashed,
            Scheme::Smd5 | Scheme::Ssha | Scheme::Ssha256 | Scheme::Ssha512 => Kind::Salted,
            Scheme::ScramSha256 => Kind::Scram,
        }
    }

    /// The bytes of the scheme's digest, 0 where it has none.
    pub(crate) fn digest_size(self) -> usize
        ensures { result ≡ digest_size self }
    {
        match self {
            Scheme::PlainMd5 | Scheme::LdapMd5 | Scheme::Smd5 => 16,
            Scheme::Sha | Scheme::Ssha => 20,
            Scheme::Sha256 | Scheme::Ssha256 => 32,
            Scheme::Sha512 | Scheme::Ssha512 => 64,
            Scheme::Plain | Scheme::Clear | Scheme::Cleartext | Scheme::ScramSha256 => 0,
        }
    }

    /// The encoding of a text whose label names none; `None` for the text itself.
    pub(crate) fn own_encoding(self) -> Option<Encoding>
        ensures { result ≡ own_encoding self }
    {
        match self {
            Scheme::Plain | Scheme::Clear | Scheme::Cleartext => None,
            Scheme::PlainMd5 => Some(Encoding::Hex),
            _ => Some(Encoding::Base64),
        }
    }
}

impl Encoding {
    // The encoding of this name, without regard to ASCII case.
    fn read(name: &[u8]) -> Option<Encoding>
        ensures { result ≡ encoding_named name.now }
    {
        if same_name(name, b"b64") || same_name(name, b"base64") {
            Some(Encoding::Base64)
        } else if same_name(name, b"hex") {
            Some(Encoding::Hex)
        } else {
            None
        }
    }
}

impl Label {
    /// The label that a text in braces says. `None` exactly where it names no scheme or encoding.
    pub(crate) fn read(name: &[u8]) -> Option<Label>
        ensures { result ≡ label_named name.now }
    {
        match split_at_byte(name, b'.') {
            None => Some(Label {
                scheme: Scheme::read(name)?,
                encoding: None,
            }),
            Some((scheme, encoding)) => {
                let scheme = Scheme::read(scheme)?;
                let encoding = Encoding::read(encoding)?;
                Some(Label {
                    scheme,
                    encoding: Some(encoding),
                })
            }
        }
    }
}

/// What stands in the braces that a text begins with, and after them.
pub(crate) fn braced(text: &[u8]) -> Option<(&[u8], &[u8])>
    ensures { MatchOption result (braced text.now ≡ None) (λ p. braced text.now ≡ Some (p.0.now, p.1.now)) }
{
    split_at_byte(strip_front(text, b"{")?, b'}')
}
