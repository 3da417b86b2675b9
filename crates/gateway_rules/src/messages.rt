//! What is sent, of the texts of the rules.
ghost use Rattle.std.specs.Prelude.{◌≡◌, IfOk, OnOk, ◌++◌};
ghost use Rattle.gateway_rules.specs.Messages.{message_of, sent_as, own_head, own_text, own_message};
ghost use Rattle.gateway_rules.specs.Texts.{text_told};
ghost use Rattle.rules_ffi_results.specs.Sending.{sent_view};

use crate::sending::Told;
use crate::values::{LENGTH, Message, nowhere, says_close, text_of};
use rules_ffi_arguments::shapes::{Out, Span};
use rules_ffi_results::sending::Sent;
use std::alloc::{AllocError, Global};

// Adds a head, with Connection: close where it hasn't it and is to.
fn add_head(text: &mut Vec<u8>, head: &[u8], out: &Out, closes: bool) -> Result<(), AllocError>
    ensures { OnOk result (text.new.items ≡ text.old.items ++ own_head closes head.now out.now) }
{
    if closes && !says_close(out) {
        text.extend_from_slice(&head[..head.len().saturating_sub(2)])?;
        text.extend_from_slice(b"Connection: close\r\n\r\n")
    } else {
        text.extend_from_slice(head)
    }
}

fn own_text(alloc: Global, told: &Told, closes: bool) -> Result<Vec<u8>, AllocError>
    ensures { IfOk result (λ t. t.items ≡ own_text closes (text_told told.now)) }
{
    let head = text_of(told.text.as_slice(), told.out.head);
    let body = text_of(told.text.as_slice(), told.out.more);
    let mut text = Vec::with_capacity(alloc, told.text.len().saturating_add(64))?;
    add_head(&mut text, head, &told.out, closes)?;
    text.extend_from_slice(body)?;
    Ok(text)
}

/// An answer of the gateway's own, of what the rules tell; `closes`: the connection ends behind it.
pub fn own_message(alloc: Global, told: &Told, closes: bool) -> Result<Message, AllocError>
    ensures { IfOk result (λ m. message_of m ≡ own_message closes (text_told told.now)) }
{
    let text = own_text(alloc, told, closes)?;
    let to = text.len() as u64;
    Ok(Message {
        text,
        head: Span { from: 0, to },
        tail: nowhere(),
        parts: Vec::new(alloc),
        status_code: told.out.code,
        framing: LENGTH,
        closes: closes || says_close(&told.out),
    })
}

/// What an answer of the rules is sent as.
pub fn message_of(sent: Sent) -> Message
    ensures { message_of result ≡ sent_as (sent_view sent) }
{
    let Sent { text, told, parts } = sent;
    Message {
        text,
        head: told.head,
        tail: told.more,
        parts,
        status_code: told.code,
        framing: told.framing,
        closes: says_close(&told),
    }
}
