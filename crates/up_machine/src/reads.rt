//! What a book shows of its uploads, also of removed ones, and its answers to requests that change nothing.
ghost use Rattle.std.specs.Prelude.{◌≡◌, All, IfOk, IfSome};
ghost use Rattle.std.specs.FinMap as map;

use crate::answer;
use crate::book::Book;
use crate::details::Details;
use crate::fresh::Fresh;
use crate::refusal::Refusal;
use crate::view::View;
use std::alloc::Global;
use up_events::{Id, NoMemory};
use up_message::Response;

impl Book {
    ghost use Rattle.up_headers.specs.declared.request.Request.TheVariants as request;
    ghost use Rattle.up_machine.specs.Decision.{IsExpectedOrNoMemory, answer_to};
    ghost use Rattle.up_machine.specs.Details.{IsOfUpload, details_in};
    ghost use Rattle.up_machine.specs.Views.{IsViewIfAny};

    /// The upload with this id, if there is one.
    pub fn upload(&self, id: Id) -> Option<View>
        ensures { IsViewIfAny (map.get self.now.content id) result }
    {
        match self.uploads.get(id) {
            Some(upload) => Some(upload.view()),
            None => None,
        }
    }

    /// What the upload with this id was created with, if there is one. It is shared and not copied. `NoMemory` if it has
    /// too many owners.
    pub fn details(&self, id: Id) -> Result<Option<Details>, NoMemory>
        ensures { IfOk result (λ found. found ≡ details_in self.now.content id) }
    {
        match self.uploads.get(id) {
            Some(upload) => Ok(Some(upload.details(id)?)),
            None => Ok(None),
        }
    }

    /// From now on, keeps what uploads are created with until one of this many lanes takes it. A creation may then find
    /// no memory for this. `NoMemory` if memory runs out.
    pub fn keep_details(&mut self, alloc: Global, lanes: u64) -> Result<(), NoMemory>
        ensures { self.new ≡ self.old }
    {
        self.fresh = Some(Fresh::new(alloc, lanes)?);
        Ok(())
    }

    /// What uploads of this lane were created with that it has not taken yet, also those that were removed since. `None`
    /// if that isn't kept. Takes no memory.
    pub fn take_details(&mut self, lane: u64) -> Option<Vec<Details>>
        ensures same { self.new ≡ self.old }
        ensures own { IfSome result (λ list.
            All (IsOfUpload self.old.content self.old.journal.accepted) list.items) }
    {
        let Some(fresh) = &mut self.fresh else {
            return None;
        };
        fresh.take(lane)
    }

    /// What the server supports (tus 1.0.0, OPTIONS).
    pub(crate) fn options(&self, alloc: Global) -> Result<Response, Refusal>
        ensures { IsExpectedOrNoMemory result (answer_to self.now request.Options) }
    {
        Ok(answer::to_options(alloc, self.max_size)?)
    }

    /// The state of an upload (tus 1.0.0, HEAD).
    pub(crate) fn head(&self, alloc: Global, id: Id) -> Result<Response, Refusal>
        ensures { IsExpectedOrNoMemory result (answer_to self.now (request.Head id)) }
    {
        let Some(upload) = self.uploads.get(id) else {
            return Err(Refusal::NotFound);
        };
        Ok(answer::to_head(alloc, upload)?)
    }

    /// The bytes of a complete upload.
    pub(crate) fn get(&self, alloc: Global, id: Id) -> Result<Response, Refusal>
        ensures { IsExpectedOrNoMemory result (answer_to self.now (request.Get id)) }
    {
        let Some(upload) = self.uploads.get(id) else {
            return Err(Refusal::NotFound);
        };
        if !upload.is_complete() {
            return Err(Refusal::Unfinished);
        }
        Ok(answer::to_get(alloc, upload)?)
    }
}
