// HMAC (RFC 2104) with MD5 and SHA-256, and Hi (RFC 5802, section 2.2). Nothing here takes memory.
ghost use Rattle.std.specs.Prelude.{◌≡◌, ◌≤◌, ◌<◌, ◌++◌, List, ℕ, length};
ghost use Rattle.md5.specs.Md5.{md5};
ghost use Rattle.sha2.specs.Sha256.{sha256};
ghost use Rattle.sha2.specs.Hashers.{Holds256};
ghost use Rattle.da_schemes.specs.Hmac.{block_key, hi, hmac_md5, hmac_of_block, hmac_sha256, padded, xor_bytes, xor_each};
ghost use Rattle.da_schemes.specs.Keyed.{IsKeyed};

use md5::{Digest as _, Md5};
use sha2::{Digest, Sha256};

/// The bytes of a block of MD5 and SHA-256.
const BLOCK: usize = 64;

const INNER_PAD: u8 = 0x36;

const OUTER_PAD: u8 = 0x5C;

// The key, and zeros to the end of a block.
fn padded(key: &[u8]) -> [u8; BLOCK]
    requires { length key.now ≤ 64 }
    ensures { result ≡ padded key.now }
{
    let mut block = [0; BLOCK];
    block[..key.len()].copy_from_slice(key);
    block
}

// Each byte XOR the pad.
fn xor_each(block: &[u8; BLOCK], pad: u8) -> [u8; BLOCK]
    ensures { result ≡ xor_each block.now pad }
{
    let mut out = *block;
    for byte in out.iter_mut() {
        *byte ^= pad;
    }
    out
}

/// Takes the bytes into the sum by XOR.
pub fn xor_into(sum: &mut [u8; 32], bytes: &[u8; 32])
    ensures { sum.new ≡ xor_bytes sum.old bytes.now }
{
    for i in 0..32 {
        sum[i] ^= bytes[i];
    }
}

// The key as one block of MD5.
fn md5_block(key: &[u8]) -> [u8; BLOCK]
    ensures { result ≡ block_key md5 key.now }
{
    if key.len() <= BLOCK {
        padded(key)
    } else {
        padded(&Md5::digest(key))
    }
}

// The key as one block of SHA-256.
fn sha256_block(key: &[u8]) -> [u8; BLOCK]
    ensures { result ≡ block_key sha256 key.now }
{
    if key.len() <= BLOCK {
        padded(key)
    } else {
        padded(&Sha256::digest(key))
    }
}

/// HMAC-MD5 of a text under a key (RFC 2104).
#[tactic(auto, unfolding(crate::specs::Hmac::hmac_md5))]
pub fn hmac_md5(key: &[u8], text: &[u8]) -> [u8; 16]
    ensures { result ≡ hmac_md5 key.now text.now }
{
    let block = md5_block(key);
    let mut inner = Md5::new();
    inner.update(&xor_each(&block, INNER_PAD));
    inner.update(text);
    let mut outer = Md5::new();
    outer.update(&xor_each(&block, OUTER_PAD));
    outer.update(&inner.finalize());
    outer.finalize()
}

/// HMAC-SHA-256 under one key, whose two blocks are already digested.
#[derive(Drop)]
struct Keyed {
    inner: Sha256,
    outer: Sha256,
}

impl Keyed {
    // The states after a key's two blocks.
    fn new(key: &[u8]) -> Keyed
        ensures { IsKeyed result (block_key sha256 key.now) }
    {
        let block = sha256_block(key);
        let mut inner = Sha256::new();
        inner.update(&xor_each(&block, INNER_PAD));
        let mut outer = Sha256::new();
        outer.update(&xor_each(&block, OUTER_PAD));
        Keyed { inner, outer }
    }

    // The keyed digest of one piece after the other.
    fn digest(&self, text: &[u8], more: &[u8]) -> [u8; 32]
        ensures { (block : List ℕ) → IsKeyed self.now block → result ≡ hmac_of_block sha256 block (text.now ++ more.now) }
    {
        let mut inner = copy_of(&self.inner);
        inner.update(text);
        inner.update(more);
        let mut outer = copy_of(&self.outer);
        outer.update(&inner.finalize());
        outer.finalize()
    }
}

// A hasher that holds the same message.
fn copy_of(hasher: &Sha256) -> Sha256
    ensures { result ≡ hasher.now }
{
    hasher.clone().unwrap()
}

/// HMAC-SHA-256 of a text under a key (RFC 2104).
#[tactic(auto, unfolding(crate::specs::Hmac::hmac_sha256))]
pub fn hmac_sha256(key: &[u8], text: &[u8]) -> [u8; 32]
    ensures { result ≡ hmac_sha256 key.now text.now }
{
    Keyed::new(key).digest(text, &[])
}

/// Hi (RFC 5802, section 2.2): the key that PBKDF2 with HMAC-SHA-256 makes of a password in so many rounds, in one
/// block (RFC 8018, section 5.2).
pub fn hi(password: &[u8], salt: &[u8], rounds: u32) -> [u8; 32]
    requires { 0 < rounds }
    ensures { result ≡ hi password.now salt.now rounds }
{
    let keyed = Keyed::new(password);
    let mut digest = keyed.digest(salt, &[0, 0, 0, 1]);
    let mut sum = digest;
    'rounds: for round in 0..rounds - 1 {
        digest = keyed.digest(&digest, &[]);
        xor_into(&mut sum, &digest);
    }
    sum
}
