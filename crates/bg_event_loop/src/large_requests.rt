//! How the request of a client becomes a large one, which is passed on before it is whole.

use crate::client::Client;
use crate::settings::{LoopSettings, UploadSettings};
use bg_both_sides::BothSides;
use bg_client_side::{ClientSettings, Fed};
use bg_http::{Framing, Request, RequestFault};
use bg_upload::{LargeRequest, Upload, UploadFault, UploadTerms, find_large_request};
use std::alloc::{AllocError, Global};

/// A large request that is not passed on yet: it waits for a seat, or is dialled for. Its head is the request of the client's
/// connection.
#[derive(Drop)]
pub(crate) struct HeldRequest {
    framing: Framing,
    /// Whether `100 Continue` is owed to its client.
    owes_continue: bool,
    /// What came of its body.
    body: Vec<u8>,
}

impl Client {
    /// Holds the request that arrives as a large one, if it is: more bytes of it came than are held, or its body is larger than one
    /// that is read whole. It waits for a seat then, as one that is whole. Gives what the bytes made of the connection; a body that
    /// is larger than it may be is refused.
    pub(crate) fn hold_large(
        &mut self,
        alloc: Global,
        settings: &LoopSettings,
        fed: Fed,
        now: u64,
    ) -> Fed {
        let Some(limits) = settings.endpoints.uploads else {
            return fed;
        };
        if self.exceeds(limits.most_body) {
            self.refuse_too_large(alloc, settings.clients, now);
            return Fed::Refused(RequestFault::TooLarge);
        }
        if self.sides.client().has_left() || !self.is_large(fed, limits) {
            return fed;
        }
        match self.find_large(alloc, limits, fed) {
            Ok(Some((request, held))) => {
                self.sides = BothSides::of_large(alloc, settings.clients, request);
                self.held = Some(held);
                Fed::Whole
            }
            Err(RequestFault::TooLarge) if fed == Fed::More => {
                self.refuse_too_large(alloc, settings.clients, now);
                Fed::Refused(RequestFault::TooLarge)
            }
            Ok(None) | Err(_) => fed,
        }
    }

    /// Whether the request that waits has a larger body than it may.
    fn exceeds(&self, most_body: usize) -> bool {
        match self.sides.client().waiting_request() {
            Some(request) => match &request.body {
                Some(body) => body.get().len() > most_body,
                None => false,
            },
            None => false,
        }
    }

    /// Whether what came is, with this result, more than is held, or refused since its body is too large to be held.
    fn is_large(&self, fed: Fed, limits: UploadSettings) -> bool {
        match fed {
            Fed::More => match self.sides.client().arriving() {
                Some(bytes) => {
                    bytes.len() > limits.most_held && self.sides.client().arriving_head().is_some()
                }
                None => false,
            },
            Fed::Refused(RequestFault::TooLarge) => true,
            Fed::NotReading | Fed::OwesContinue | Fed::Whole | Fed::Refused(_) => false,
        }
    }

    /// The large request that what came begins with, if it is one: without its body, and what is held of it. Without memory there is
    /// none.
    fn find_large(
        &self,
        alloc: Global,
        limits: UploadSettings,
        fed: Fed,
    ) -> Result<Option<(Request, HeldRequest)>, RequestFault> {
        let Some(bytes) = self.sides.client().arriving() else {
            return Ok(None);
        };
        let Some(large) = find_large_request(alloc, bytes, limits.most_body)? else {
            return Ok(None);
        };
        match held_request(alloc, &large, bytes, fed) {
            Ok(held) => Ok(Some((large.into_request(), held))),
            Err(_) => Ok(None),
        }
    }

    /// Refuses the request that arrives with 413.
    fn refuse_too_large(&mut self, alloc: Global, settings: ClientSettings, now: u64) {
        self.sides = BothSides::of_refusal(alloc, settings, None, 413, now);
    }

    /// Begins to pass the large request on, which has a connection to its endpoint from now on. Without memory it is over.
    pub(crate) fn begin_upload(&mut self, alloc: Global, terms: UploadTerms, now: u64) {
        let Some(held) = self.held.take() else {
            return;
        };
        match self.upload_of(alloc, held, terms, now) {
            Ok((upload, fault)) => {
                self.upload = Some(upload);
                self.upload_fault = fault;
            }
            Err(_) => {
                self.upload_fault = Some(UploadFault::Request(RequestFault::OutOfMemory));
            }
        }
    }

    /// The large request as it is passed on, with what came of its body, and the fault of that, if it has one. The only error is an
    /// allocation failure.
    fn upload_of(
        &self,
        alloc: Global,
        held: HeldRequest,
        terms: UploadTerms,
        now: u64,
    ) -> Result<(Box<Upload>, Option<UploadFault>), AllocError> {
        let Some(request) = self.sides.request() else {
            return Err(AllocError);
        };
        let HeldRequest {
            framing,
            owes_continue,
            body,
        } = held;
        let terms = UploadTerms {
            owes_continue,
            ..terms
        };
        let Ok(upload) = Upload::new(alloc, request, framing, terms, now) else {
            return Err(AllocError);
        };
        let Ok(mut upload) = Box::new(alloc, upload) else {
            return Err(AllocError);
        };
        let fault = upload.client_sent(&body, now).err();
        Ok((upload, fault))
    }

    /// Whether its large request is passed on, or is over by a fault of that.
    pub(crate) fn passes_request_on(&self) -> bool {
        self.upload.is_some() || self.upload_fault.is_some()
    }
}

/// What is held of a large request that these bytes begin with. A client whose body is refused by its length was not told to
/// continue. The only error is an allocation failure.
fn held_request(
    alloc: Global,
    large: &LargeRequest,
    bytes: &[u8],
    fed: Fed,
) -> Result<HeldRequest, AllocError> {
    let is_unasked = fed != Fed::More && matches!(large.framing, Framing::Length(_));
    let from = large.head_length.min(bytes.len());
    Ok(HeldRequest {
        framing: large.framing,
        owes_continue: large.expects_continue && is_unasked,
        body: Vec::from_slice(alloc, &bytes[from..])?,
    })
}
