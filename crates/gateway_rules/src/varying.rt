//! Responses that vary by fields of the request (RFC 9111, 4.1): their second keys, and the index of their sets that stands under the first key.
ghost use Rattle.std.specs.Prelude.{◌≡◌, map, option_map, IfOk};
ghost use Rattle.rules_ffi.specs.Lists.{is_token, listed_in};
ghost use Rattle.rules_ffi_arguments.specs.Given.{Gives};
ghost use Rattle.rules_fields.specs.Types.{asked_of, chosen};
ghost use Rattle.rules_response.specs.Reply.{piece_of};
ghost use Rattle.gateway_rules.specs.Options.{options_of};
ghost use Rattle.gateway_rules.specs.Values.{request_of, response_of};
ghost use Rattle.gateway_rules.specs.Varying.{keys_by, keys_in, index_of, new_index, same_index, index_told, indexed_in};

use crate::Rules;
use crate::moments::Moment;
use crate::values::{RequestHead, ResponseHead, text_of};
use http1_message_parts::scan::place_of;
use rules_ffi::listing::list_for;
use rules_ffi::variants::keys_of;
use rules_ffi_arguments::bad::Bad;
use rules_ffi_arguments::moments::moment_in;
use rules_ffi_arguments::options::{lists_in, options};
use rules_ffi_arguments::request::request;
use rules_ffi_arguments::response::response;
use rules_ffi_arguments::shapes::{KeptShape, MetaShape};
use rules_ffi_arguments::spans::lines_in;
use rules_ffi_results::marks::KEPT;
use rules_fields::types::{Options, Request};
use rules_response::answering::Part;
use std::alloc::{AllocError, Global};

/// The status of an index: what is found with it is no response.
pub const VARY_INDEX_STATUS: u64 = 600;

/// The index under whose sets a response is stored.
#[derive(Drop)]
pub struct VaryIndex {
    /// Of a new one.
    pub head: Vec<u8>,
    pub meta: MetaShape,
    pub body: Vec<u8>,
    /// Which of its sets is the response's.
    pub place: u64,
    /// It is to be put under the first key.
    pub is_new: bool,
}

// A token is of 8 to 64 bytes that end no line.
fn is_token(token: &[u8]) -> bool
    ensures { result ≡ is_token token.now }
{
    place_of(token, b'\n') == token.len() && token.len() >= 8 && token.len() <= 64
}

impl Rules {
    /// The second keys of a request by the body of an index, one for each of its sets, in their order.
    #[tactic(auto, unfolding(crate::specs::Varying::keys_in))]
    pub fn secondary_keys(&self, head: &RequestHead, index: &[u8]) -> Result<Vec<Vec<u8>>, Bad>
        ensures { Gives (λ keys. map (λ k. k.items) keys.items) result (keys_in (options_of self.now) (request_of head.now) index.now) }
    {
        let alloc = self.alloc;
        let lists = lists_in(alloc, self.words.as_slice())?;
        let options = options(&self.numbers, &lists)?;
        let text = head.text.as_slice();
        let lines = lines_in(alloc, text, head.shape.lines)?;
        let request = request(&head.shape, text, lines.as_slice(), options.scheme)?;
        Ok(keys_by(alloc, &request, index, &options)?)
    }

    // What is told of the place of a response, by the index that stands.
    #[tactic(auto, unfolding(rules_ffi::specs::Lists::listed_in))]
    fn listed(
        &self,
        head: &ResponseHead,
        now: Moment,
        index: &[u8],
        token: &[u8],
    ) -> Result<(Vec<u8>, KeptShape), Bad>
        ensures { Gives (λ t. (t.0.items, t.1)) result (listed_in (options_of self.now).numbers (options_of self.now).words head.now.shape head.now.text.items
            now.seconds now.nanoseconds index.now token.now) }
    {
        let alloc = self.alloc;
        let lists = lists_in(alloc, self.words.as_slice())?;
        options(&self.numbers, &lists)?;
        let lines = lines_in(alloc, head.text.as_slice(), head.shape.lines)?;
        let response = response(&head.shape, lines.as_slice())?;
        let now = moment_in(now.seconds, now.nanoseconds)?;
        if !is_token(token) {
            return Err(Bad::Call);
        }
        Ok(list_for(alloc, response.lines, index, token, now)?)
    }

    /// Where a response is stored, by the body of the index that stands under the first key now, which is empty where none does: in that, or in a new one;
    /// none: under the first key. The token of 8 to 64 bytes names a new set, and is used once.
    pub fn update_vary_index(
        &self,
        response: &ResponseHead,
        now: Moment,
        index: &[u8],
        token: &[u8],
    ) -> Result<Option<VaryIndex>, Bad>
        ensures { Gives (option_map index_of) result (indexed_in (options_of self.now) (response_of response.now) now index.now token.now) }
    {
        let (text, told) = self.listed(response, now, index, token)?;
        Ok(index_told(self.alloc, index, text.as_slice(), &told)?)
    }
}

fn index_told(
    alloc: Global,
    index: &[u8],
    text: &[u8],
    told: &KeptShape,
) -> Result<Option<VaryIndex>, AllocError>
    ensures { IfOk result (λ v. option_map index_of v ≡ index_told index.now (text.now, told.now)) }
{
    if told.status == KEPT {
        return Ok(Some(new_index(alloc, text, told)?));
    }
    if index.is_empty() {
        return Ok(None);
    }
    Ok(Some(same_index(alloc, index, told)?))
}

fn new_index(alloc: Global, text: &[u8], told: &KeptShape) -> Result<VaryIndex, AllocError>
    ensures { IfOk result (λ v. index_of v ≡ new_index text.now told.now) }
{
    Ok(VaryIndex {
        head: Vec::from_slice(alloc, text_of(text, told.head))?,
        meta: told.meta,
        body: Vec::from_slice(alloc, text_of(text, told.body))?,
        place: 0,
        is_new: true,
    })
}

fn same_index(alloc: Global, index: &[u8], told: &KeptShape) -> Result<VaryIndex, AllocError>
    ensures { IfOk result (λ v. index_of v ≡ same_index index.now told.now) }
{
    Ok(VaryIndex {
        head: Vec::new(alloc),
        meta: told.meta,
        body: Vec::from_slice(alloc, index)?,
        place: told.place,
        is_new: false,
    })
}

// One for each set of an index, in their order.
fn keys_by(
    alloc: Global,
    request: &Request<'_>,
    index: &[u8],
    options: &Options<'_>,
) -> Result<Vec<Vec<u8>>, AllocError>
    ensures { IfOk result (λ keys. map (λ k. k.items) keys.items ≡ keys_by (asked_of request.now) (chosen options.now) index.now) }
{
    let keys = keys_of(alloc, request, index, options)?;
    texts_of(alloc, keys)
}

// The texts of keys.
fn texts_of(alloc: Global, keys: Vec<Part>) -> Result<Vec<Vec<u8>>, AllocError>
    ensures { IfOk result (λ v. map (λ k. k.items) v.items ≡ map (λ p. p.before) (map piece_of keys.items)) }
{
    let mut texts = Vec::new(alloc);
    for key in keys {
        let Part { before, .. } = key;
        texts.push(before)?;
    }
    Ok(texts)
}
