//! Texts that are sent, each in a room that takes it.
ghost use Rattle.std.specs.Prelude.{option_map};
ghost use Rattle.rules_ffi_arguments.specs.Given.{Gives};
ghost use Rattle.rules_ffi_arguments.specs.Moments.{moment_in};
ghost use Rattle.rules_ffi.specs.Sends.{sent_in};
ghost use Rattle.rules_ffi.specs.Plains.{plain_in};
ghost use Rattle.rules_ffi.specs.Keys.{purged_in, told_keys};
ghost use Rattle.gateway_rules.specs.Dated.{GivesDated};
ghost use Rattle.gateway_rules.specs.Options.{options_of};
ghost use Rattle.gateway_rules.specs.Rooms.{GivesWithin, GivesDatedWithin};
ghost use Rattle.gateway_rules.specs.Stored.{found_of};
ghost use Rattle.gateway_rules.specs.Values.{request_of, response_of};
ghost use Rattle.gateway_rules.specs.Texts.{text_told};

use crate::Rules;
use crate::moments::Moment;
use crate::rooms::text_in;
use crate::stored::{Stored, block_len, block_of, shape_of};
use crate::values::{RequestHead, ResponseHead};
use rules_ffi::plain::plain;
use rules_ffi::purging::invalidates;
use rules_ffi::sending::forward;
use rules_ffi_arguments::bad::Bad;
use rules_ffi_arguments::shapes::Out;
use rules_ffi_results::marks::{NO_ROOM, blank};

/// A text, and what is told of it.
#[derive(Drop)]
pub struct Told {
    pub text: Vec<u8>,
    pub out: Out,
}

// The bytes of an answer of the gateway's own, for the first guess how long its text gets.
const OWN: usize = 128;

impl Rules {
    // The head of a request to the origin in a room for what is made of so many bytes, or how many it has.
    fn forward_within(
        &self,
        request: &RequestHead,
        what: u64,
        stored: Option<&Stored>,
        peer: &[u8],
        size: usize,
    ) -> Result<Result<Told, u64>, Bad>
        ensures { GivesWithin text_told result size (sent_in (options_of self.now).numbers (options_of self.now).words request.now.shape request.now.text.items what
            (found_of (option_map (λ s. s.now) stored.entry)).0 (found_of (option_map (λ s. s.now) stored.entry)).1 peer.now) }
    {
        let mut room = self.room(size)?;
        let mut out = blank(0, 0);
        forward(
            self.alloc,
            &self.numbers,
            self.words.as_slice(),
            &request.shape,
            request.text.as_slice(),
            what,
            &shape_of(stored),
            block_of(stored),
            peer,
            room.as_mut_slice(),
            &mut out,
        );
        if out.status == NO_ROOM {
            return Ok(Err(out.needed));
        }
        match text_in(room, out.status, out.head.to) {
            Ok(text) => Ok(Ok(Told { text, out })),
            Err(bad) => Err(bad),
        }
    }

    // The head of a request to the origin.
    pub(crate) fn forward(
        &self,
        request: &RequestHead,
        what: u64,
        stored: Option<&Stored>,
        peer: &[u8],
    ) -> Result<Told, Bad>
        ensures { Gives text_told result (sent_in (options_of self.now).numbers (options_of self.now).words request.now.shape request.now.text.items what
            (found_of (option_map (λ s. s.now) stored.entry)).0 (found_of (option_map (λ s. s.now) stored.entry)).1 peer.now) }
    {
        let size = request.text.len().saturating_add(block_len(stored));
        match self.forward_within(request, what, stored, peer, size)? {
            Ok(told) => Ok(told),
            Err(needed) => {
                match self.forward_within(request, what, stored, peer, needed as usize)? {
                    Ok(told) => Ok(told),
                    Err(_) => Err(Bad::Call),
                }
            }
        }
    }

    // The list of the keys that a response makes out of date in a room for what is made of so many bytes, or how many it has.
    fn invalidate_within(
        &self,
        request: &RequestHead,
        response: &ResponseHead,
        size: usize,
    ) -> Result<Result<Told, u64>, Bad>
        ensures { GivesWithin text_told result size (option_map told_keys (purged_in (options_of self.now).numbers (options_of self.now).words
            request.now.shape request.now.text.items response.now.shape response.now.text.items)) }
    {
        let mut room = self.room(size)?;
        let mut out = blank(0, 0);
        invalidates(
            self.alloc,
            &self.numbers,
            self.words.as_slice(),
            &request.shape,
            request.text.as_slice(),
            &response.shape,
            response.text.as_slice(),
            room.as_mut_slice(),
            &mut out,
        );
        if out.status == NO_ROOM {
            return Ok(Err(out.needed));
        }
        match text_in(room, out.status, out.more.to) {
            Ok(text) => Ok(Ok(Told { text, out })),
            Err(bad) => Err(bad),
        }
    }

    // The list of the keys that a response makes out of date.
    pub(crate) fn invalidate(
        &self,
        request: &RequestHead,
        response: &ResponseHead,
    ) -> Result<Told, Bad>
        ensures { Gives text_told result (option_map told_keys (purged_in (options_of self.now).numbers (options_of self.now).words
            request.now.shape request.now.text.items response.now.shape response.now.text.items)) }
    {
        let size = request.text.len().saturating_add(response.text.len());
        match self.invalidate_within(request, response, size)? {
            Ok(told) => Ok(told),
            Err(needed) => match self.invalidate_within(request, response, needed as usize)? {
                Ok(told) => Ok(told),
                Err(_) => Err(Bad::Call),
            },
        }
    }

    // An answer of the gateway's own in a room for what is made of so many bytes, or how many it has.
    fn plain_within(
        &self,
        request: &RequestHead,
        code: u64,
        reason: u64,
        now: Moment,
        size: usize,
    ) -> Result<Result<Told, u64>, Bad>
        ensures { GivesDatedWithin text_told result (moment_in now.seconds now.nanoseconds)
            (plain_in (options_of self.now).numbers (options_of self.now).words request.now.shape code reason) }
    {
        let mut room = self.room(size)?;
        let mut out = blank(0, 0);
        plain(
            self.alloc,
            &self.numbers,
            self.words.as_slice(),
            &request.shape,
            code,
            reason,
            now.seconds,
            now.nanoseconds,
            room.as_mut_slice(),
            &mut out,
        );
        if out.status == NO_ROOM {
            return Ok(Err(out.needed));
        }
        match text_in(room, out.status, out.head.to.max(out.more.to)) {
            Ok(text) => Ok(Ok(Told { text, out })),
            Err(bad) => Err(bad),
        }
    }

    // An answer of the gateway's own.
    pub(crate) fn plain(
        &self,
        request: &RequestHead,
        code: u64,
        reason: u64,
        now: Moment,
    ) -> Result<Told, Bad>
        ensures { GivesDated text_told result (moment_in now.seconds now.nanoseconds)
            (plain_in (options_of self.now).numbers (options_of self.now).words request.now.shape code reason) }
    {
        match self.plain_within(request, code, reason, now, OWN)? {
            Ok(told) => Ok(told),
            Err(needed) => match self.plain_within(request, code, reason, now, needed as usize)? {
                Ok(told) => Ok(told),
                // Two texts of a second are equally long: this doesn't come.
                Err(_) => Err(Bad::Memory),
            },
        }
    }
}
