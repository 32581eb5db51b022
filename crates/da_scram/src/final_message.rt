// The client's last message.

ghost use Rattle.std.specs.Prelude.{◌≡◌, ◌≢◌, ◌≤◌, ◌+◌, ◌-◌, length, take, None, IfOk, MatchOption, option_copied};
ghost use Rattle.da_base.specs.Words.{pieces, after_front};
ghost use Rattle.da_scram.specs.Messages.{final_front};
ghost use Rattle.da_scram.specs.Reading.{parts_after, parts_read, proof_read, final_message};
ghost use Rattle.da_scram.specs.Cuts.{HasProof, ReadsFinal};

use crate::first_message::is_extension;
use da_tabline::{from_base64, push_base64, split_at_byte, strip_front};
use std::alloc::{AllocError, Global};

/// A client's last message.
#[derive(Clone, Copy, Drop)]
pub(crate) struct FinalCut<'a> {
    /// The message without its proof (client-final-message-without-proof).
    pub without_proof: &'a [u8],
    pub proof: [u8; 32],
}

// What stands between the last message's front and its proof, besides extensions.
const PROOF_KEY: &[u8] = b",p=";

/// The client's last message after this header of the first one, under these nonces of client and server. `None` exactly
/// where the text is none.
pub(crate) fn read_final<'a>(
    alloc: Global,
    header: &[u8],
    nonce: &[u8],
    server_nonce: &[u8],
    text: &'a [u8],
) -> Result<Option<FinalCut<'a>>, AllocError>
    ensures { IfOk result (λ read. MatchOption read (final_message header.now nonce.now server_nonce.now text.now ≡ None)
        (λ last. ReadsFinal header.now nonce.now server_nonce.now text.now last.without_proof.now last.proof)) }
{
    let Some(rest) = after_nonces(alloc, header, nonce, server_nonce, text)? else {
        return Ok(None);
    };
    let Some(written) = written_proof(rest) else {
        return Ok(None);
    };
    let Some(proof) = read_proof(alloc, written)? else {
        return Ok(None);
    };
    Ok(Some(FinalCut {
        without_proof: before_proof(text, written),
        proof,
    }))
}

// What follows the header and the nonces.
fn after_nonces<'a>(
    alloc: Global,
    header: &[u8],
    nonce: &[u8],
    server_nonce: &[u8],
    text: &'a [u8],
) -> Result<Option<&'a [u8]>, AllocError>
    ensures { IfOk result (λ rest. option_copied rest ≡ after_front (final_front header.now nonce.now server_nonce.now) text.now) }
{
    let front = final_front(alloc, header, nonce, server_nonce)?;
    Ok(strip_front(text, &front))
}

// What stands before the proof that ends the text.
fn before_proof<'a>(text: &'a [u8], written: &[u8]) -> &'a [u8]
    requires { length written.now + 3 ≤ length text.now }
    ensures { result.now ≡ take (length text.now - length written.now - 3) text.now }
{
    &text[..text.len() - written.len() - PROOF_KEY.len()]
}

// What the message begins with.
fn final_front(
    alloc: Global,
    header: &[u8],
    nonce: &[u8],
    server_nonce: &[u8],
) -> Result<Vec<u8>, AllocError>
    ensures { IfOk result (λ front. front.items ≡ final_front header.now nonce.now server_nonce.now) }
{
    let mut front = Vec::from_slice(alloc, b"c=")?;
    push_base64(&mut front, alloc, header)?;
    front.extend_from_slice(b",r=")?;
    front.extend_from_slice(nonce)?;
    front.extend_from_slice(server_nonce)?;
    Ok(front)
}

// The proof as it is written, after the nonces and any extensions. `None` exactly where something else stands there.
fn written_proof(rest: &[u8]) -> Option<&[u8]>
    ensures { MatchOption result (parts_after (pieces 44 rest.now) ≡ None) (λ written. HasProof (parts_after (pieces 44 rest.now)) written.now) }
{
    match strip_front(rest, b",") {
        Some(parts) => proof_after_extensions(parts),
        None => None,
    }
}

// The proof as it is written, after any extensions.
fn proof_after_extensions(parts: &[u8]) -> Option<&[u8]>
    ensures { MatchOption result (parts_read (pieces 44 parts.now) ≡ None) (λ written. HasProof (parts_read (pieces 44 parts.now)) written.now) }
{
    let mut rest = parts;
    'pieces: while let Some((extension, more)) = split_at_byte(rest, b',') {
        if !is_extension(extension) {
            return None;
        }
        rest = more;
    }
    strip_front(rest, b"p=")
}

// The 32 bytes of a proof.
fn read_proof(alloc: Global, text: &[u8]) -> Result<Option<[u8; 32]>, AllocError>
    ensures { IfOk result (λ proof. proof ≡ proof_read text.now) }
{
    match from_base64(alloc, text)? {
        Some(bytes) => Ok(proof_of(&bytes)),
        None => Ok(None),
    }
}

fn proof_of(bytes: &[u8]) -> Option<[u8; 32]>
    ensures { MatchOption result (length bytes.now ≢ 32) (λ proof. (proof ≡ bytes.now) × (length bytes.now ≡ 32)) }
{
    match bytes.as_array::<32>() {
        Some(proof) => Some(*proof),
        None => None,
    }
}
