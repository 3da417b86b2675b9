//! A client's request: read, sent to the origin, and answered by the gateway itself.
ghost use Rattle.std.specs.Prelude.{◌≡◌, map, option_map, IfOk};
ghost use Rattle.rules_ffi_arguments.specs.Given.{Gives};
ghost use Rattle.rules_ffi_arguments.specs.Moments.{moment_in};
ghost use Rattle.gateway_rules.specs.Dated.{GivesDated};
ghost use Rattle.gateway_rules.specs.Messages.{message_of};
ghost use Rattle.gateway_rules.specs.Options.{options_of};
ghost use Rattle.gateway_rules.specs.Requests.{parsed_of, is_unended, parsed_in, has_line, begins, sent_of, sent_value, forwarded_in, known_reason, own_in, ended_lines, invalidated_in};
ghost use Rattle.gateway_rules.specs.Stored.{found_of};
ghost use Rattle.gateway_rules.specs.Texts.{text_told};
ghost use Rattle.gateway_rules.specs.Values.{request_of, response_of};

use crate::Rules;
use crate::messages::own_message;
use crate::moments::Moment;
use crate::sending::Told;
use crate::stored::Stored;
pub use crate::stored::{block_len, block_of, shape_of};
use crate::values::{Message, NO_ANSWER, RequestHead, ResponseHead, SentRequest, is_head};
use http1_message_parts::rows::first_line;
use rules_ffi::reading::head_end;
use rules_ffi_arguments::bad::Bad;
use rules_ffi_results::marks::MORE;
use rules_fields::blanks::is_small;
use std::alloc::{AllocError, Global};

/// What may come of a request's head.
#[derive(Drop)]
pub enum ParsedRequest {
    /// It goes on.
    More,
    /// It was read, or is refused.
    Head(RequestHead),
}

// A reason that the rules have a name for.
fn known_reason(reason: u64) -> u64
    ensures { result ≡ known_reason reason }
{
    if reason < 1000 { reason } else { NO_ANSWER }
}

impl Rules {
    // Whether no head ends in these bytes, and they aren't too many for one.
    fn is_unended(&self, bytes: &[u8], looked: u64) -> bool
        ensures { result ≡ is_unended (options_of self.now) bytes.now looked }
    {
        head_end(bytes, looked) == 0 && bytes.len() as u64 <= self.numbers.most_head
    }

    /// The head of the next request; `looked`: so many of these bytes were given before.
    #[tactic(auto, unfolding(crate::specs::Requests::parsed_in))]
    pub fn parse_request(&self, bytes: &[u8], looked: u64) -> Result<ParsedRequest, Bad>
        ensures { Gives parsed_of result (parsed_in (options_of self.now) bytes.now looked) }
    {
        if self.is_unended(bytes, looked) {
            return Ok(ParsedRequest::More);
        }
        let head = self.request(bytes)?;
        if head.shape.status == MORE {
            Ok(ParsedRequest::More)
        } else {
            Ok(ParsedRequest::Head(head))
        }
    }

    /// The head of the request to the origin. `what`: 1 pass, 2 full, 3 conditional, 4 unconditional.
    pub fn forward_request(
        &self,
        request: &RequestHead,
        what: u64,
        stored: Option<&Stored>,
        peer: &[u8],
    ) -> Result<SentRequest, Bad>
        ensures { Gives sent_of result (forwarded_in (options_of self.now) (request_of request.now) what (found_of (option_map (λ s. s.now) stored.entry)) peer.now) }
    {
        let told = self.forward(request, what, stored, peer)?;
        Ok(sent_request(told))
    }

    /// An answer of the gateway's own; `closes`: the connection ends behind it.
    pub fn make_response(
        &self,
        request: &RequestHead,
        code: u64,
        reason: u64,
        now: Moment,
        closes: bool,
    ) -> Result<Message, Bad>
        ensures { GivesDated message_of result (moment_in now.seconds now.nanoseconds) (own_in (options_of self.now) (request_of request.now) code reason closes) }
    {
        match self.plain(request, code, known_reason(reason), now) {
            Ok(told) => Ok(own_message(self.alloc, &told, closes)?),
            Err(bad) => Err(bad),
        }
    }

    /// The keys that a response makes out of date.
    pub fn invalidated_keys(
        &self,
        request: &RequestHead,
        response: &ResponseHead,
    ) -> Result<Vec<Vec<u8>>, Bad>
        ensures { Gives (λ keys. map (λ k. k.items) keys.items) result (invalidated_in (options_of self.now) (request_of request.now) (response_of response.now)) }
    {
        let told = self.invalidate(request, response)?;
        Ok(ended_lines(self.alloc, told.text.as_slice())?)
    }
}

// The texts in front of each LF.
fn ended_lines(alloc: Global, text: &[u8]) -> Result<Vec<Vec<u8>>, AllocError>
    ensures { IfOk result (λ lines. map (λ l. l.items) lines.items ≡ ended_lines text.now) }
{
    let mut lines = Vec::new(alloc);
    let mut left = Some(text);
    while let Some(text) = left {
        let (line, rest) = first_line(text);
        left = rest;
        if rest.is_some() {
            lines.push(Vec::from_slice(alloc, line)?)?;
        }
    }
    Ok(lines)
}

fn sent_request(told: Told) -> SentRequest
    ensures { sent_of result ≡ sent_value (text_told told) }
{
    let Told { text, out } = told;
    let head = text.as_slice();
    let has_range = has_line(head, b"range:");
    let is_conditional = has_line(head, b"if-none-match:") || has_line(head, b"if-modified-since:");
    SentRequest {
        head: text,
        fetch: out.choice,
        framing: out.framing,
        is_head: is_head(out.marks),
        is_conditional,
        has_range,
    }
}

// Whether a head has a line that begins so, in small letters.
fn has_line(head: &[u8], name: &[u8]) -> bool
    ensures { result ≡ has_line name.now head.now }
{
    let mut left = Some(head);
    while let Some(text) = left {
        let (line, rest) = first_line(text);
        if begins(line, name) {
            return true;
        }
        left = rest;
    }
    false
}

fn begins(line: &[u8], name: &[u8]) -> bool
    ensures { result ≡ begins name.now line.now }
{
    is_small(&line[..name.len().min(line.len())], name)
}
