//! What is found: how it may answer, whether it may in the place of an error, and the answer.
ghost use Rattle.std.specs.Prelude.{◌≡◌, option_map};
ghost use Rattle.rules_ffi_arguments.specs.Given.{Gives};
ghost use Rattle.gateway_rules.specs.Messages.{message_of};
ghost use Rattle.gateway_rules.specs.Options.{options_of};
ghost use Rattle.gateway_rules.specs.Responses.{reuse_of, reused_in, spares_in, stale_in, error_in, served_in, whole_in};
ghost use Rattle.gateway_rules.specs.Stored.{stored_of, found_of};
ghost use Rattle.gateway_rules.specs.Values.{request_of};
ghost use Rattle.rules_serving.specs.Answers.{answers, reply_in};
ghost use Rattle.rules_ffi_results.specs.Sending.{sent_view};

use crate::Rules;
use crate::messages::message_of;
use crate::moments::Moment;
use crate::rooms::done;
use crate::stored::Stored;
use crate::values::{Message, RequestHead};
use gateway_types::looks::Reuse;
use rules_ffi_arguments::bad::Bad;
use rules_ffi_arguments::moments::moment_in;
use rules_ffi_arguments::options::{lists_in, options};
use rules_ffi_arguments::request::request;
use rules_ffi_arguments::shapes::{HeadShape, How, OptionNumbers};
use rules_ffi_arguments::spans::lines_in;
use rules_ffi_results::how::how_in;
use rules_ffi_results::marks::{NONE, blank};
use rules_ffi_results::sending::Sent;
use rules_reuse::using::Use;
use rules_serving::answering::{is_list, reply_by};
use rules_serving::choosing::{spare, use_by};
use std::alloc::Global;

fn reuse_of(picked: Use) -> Reuse
    ensures { result ≡ reuse_of picked }
{
    match picked {
        Use::Fresh => Reuse::Fresh,
        Use::Stale => Reuse::Stale,
        Use::Meanwhile => Reuse::WhileRevalidating,
        Use::Validate => Reuse::AfterValidation,
        Use::Pass => Reuse::Bypass,
    }
}

// Whether it answers at once.
fn answers(picked: Use) -> bool
    ensures { result ≡ answers picked }
{
    match picked {
        Use::Fresh | Use::Stale | Use::Meanwhile => true,
        Use::Validate | Use::Pass => false,
    }
}

impl Rules {
    /// How what was found may answer.
    #[tactic(auto, unfolding(rules_serving::specs::Choices::use_in))]
    pub fn decide_reuse(
        &self,
        head: &RequestHead,
        stored: &Stored,
        now: Moment,
    ) -> Result<Reuse, Bad>
        ensures { Gives (λ r. r) result (reused_in (options_of self.now) (request_of head.now) (stored_of stored.now) now) }
    {
        let lists = lists_in(self.alloc, self.words.as_slice())?;
        let options = options(&self.numbers, &lists)?;
        let text = head.text.as_slice();
        let asked = lines_in(self.alloc, text, head.shape.asked)?;
        let request = request(&head.shape, text, asked.as_slice(), options.scheme)?;
        let now = moment_in(now.seconds, now.nanoseconds)?;
        let block = stored.block();
        let picked = use_by(self.alloc, &request, &stored.shape, block, now, &options)?;
        Ok(reuse_of(picked))
    }

    /// How what is stored as a whole may answer, and the answer where it does at once: what `decide_reuse` and `serve_stored` give, over options and
    /// lines that are read once.
    #[tactic(auto, unfolding(crate::specs::Responses::whole_in, rules_serving::specs::Choices::use_in, rules_serving::specs::Answers::reply_in))]
    pub fn serve_whole(
        &self,
        asks: &RequestHead,
        head: &HeadShape,
        block: &[u8],
        length: u64,
        now: Moment,
        how: &How,
    ) -> Result<(Reuse, Option<Message>), Bad>
        ensures { Gives (λ r. (r.0, option_map message_of r.1)) result (whole_in (options_of self.now) (request_of asks.now) head.now block.now length now how.now) }
    {
        let alloc = self.alloc;
        let lists = lists_in(alloc, self.words.as_slice())?;
        let options = options(&self.numbers, &lists)?;
        let text = asks.text.as_slice();
        let lines = lines_in(alloc, text, asks.shape.asked)?;
        let request = request(&asks.shape, text, lines.as_slice(), options.scheme)?;
        let now = moment_in(now.seconds, now.nanoseconds)?;
        let picked = use_by(alloc, &request, head, block, now, &options)?;
        if !answers(picked) {
            return Ok((reuse_of(picked), None));
        }
        if is_list(head) {
            return Err(Bad::Call);
        }
        let how = how_in(how)?;
        let shape = &asks.shape;
        let sent = reply_by(
            alloc, shape, &request, head, block, length, now, how, &options,
        )?;
        Ok((reuse_of(picked), Some(message_of(sent))))
    }

    // Whether it may answer in the place of an error, and the status of no answer.
    fn spares(
        &self,
        request: &RequestHead,
        stored: &Stored,
        now: Moment,
        origin_status: u64,
    ) -> Result<(bool, u64), Bad>
        ensures { Gives (λ s. (s.0, s.1)) result (spares_in (options_of self.now) (request_of request.now) (stored_of stored.now) now origin_status) }
    {
        let mut out = blank(0, 0);
        spare(
            self.alloc,
            &self.numbers,
            self.words.as_slice(),
            &request.shape,
            request.text.as_slice(),
            &stored.shape,
            stored.block(),
            now.seconds,
            now.nanoseconds,
            origin_status,
            &mut out,
        );
        done(out.status)?;
        Ok((out.choice == 1, out.code))
    }

    /// Whether what is stale answers in the place of an error; 0: nothing came.
    pub fn stale_on_error(
        &self,
        request: &RequestHead,
        stored: Option<&Stored>,
        now: Moment,
        origin_status: u64,
    ) -> Result<bool, Bad>
        ensures { Gives (λ may. may) result (stale_in (options_of self.now) (request_of request.now) (option_map (λ s. stored_of s.now) stored.entry) now origin_status) }
    {
        match stored {
            None => Ok(false),
            Some(stored) => {
                let (may, _) = self.spares(request, stored, now, origin_status)?;
                Ok(may)
            }
        }
    }

    /// The status of an answer where nothing came, and what is stored doesn't answer.
    pub fn error_status(
        &self,
        request: &RequestHead,
        stored: Option<&Stored>,
        now: Moment,
    ) -> Result<u64, Bad>
        ensures { Gives (λ status. status) result (error_in (options_of self.now) (request_of request.now) (option_map (λ s. stored_of s.now) stored.entry) now) }
    {
        match stored {
            None => Ok(502),
            Some(stored) => {
                let (may, code) = self.spares(request, stored, now, 0)?;
                Ok(if may { 502 } else { code })
            }
        }
    }

    /// The answer of what is stored, or of what is in flight: several ranges of that are answered by the whole.
    pub fn serve_stored(
        &self,
        asks: &RequestHead,
        head: &HeadShape,
        block: &[u8],
        length: Option<u64>,
        now: Moment,
        how: &How,
    ) -> Result<Message, Bad>
        ensures { Gives message_of result (served_in (options_of self.now) (request_of asks.now) head.now block.now length now how.now) }
    {
        let alloc = self.alloc;
        match length {
            Some(length) => {
                let words = self.words.as_slice();
                let sent = reply(
                    alloc,
                    &self.numbers,
                    words,
                    asks,
                    head,
                    block,
                    length,
                    now,
                    how,
                )?;
                Ok(message_of(sent))
            }
            None => {
                let numbers = self.one_range();
                let words = self.one_words.as_slice();
                let sent = reply(alloc, &numbers, words, asks, head, block, NONE, now, how)?;
                Ok(message_of(sent))
            }
        }
    }
}

// The answer from what is stored, by these options.
#[tactic(auto, unfolding(rules_serving::specs::Answers::reply_in))]
fn reply(
    alloc: Global,
    numbers: &OptionNumbers,
    words: &[u8],
    asks: &RequestHead,
    head: &HeadShape,
    block: &[u8],
    length: u64,
    now: Moment,
    how: &How,
) -> Result<Sent, Bad>
    ensures { Gives sent_view result (reply_in numbers.now words.now asks.now.shape asks.now.text.items head.now block.now length now.seconds now.nanoseconds how.now) }
{
    let lists = lists_in(alloc, words)?;
    let options = options(numbers, &lists)?;
    let how = how_in(how)?;
    let text = asks.text.as_slice();
    let lines = lines_in(alloc, text, asks.shape.asked)?;
    let request = request(&asks.shape, text, lines.as_slice(), options.scheme)?;
    let now = moment_in(now.seconds, now.nanoseconds)?;
    if is_list(head) {
        return Err(Bad::Call);
    }
    reply_by(
        alloc,
        &asks.shape,
        &request,
        head,
        block,
        length,
        now,
        how,
        &options,
    )
}
